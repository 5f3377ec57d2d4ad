//! Small ASCII texts stored in place: the codes of months and eras.

ghost use Rattle.std.specs.Prelude.{◌≡◌, ◌<◌, ◌≤◌, ◌↔◌, length, IsOk, IfOk, IsErrOf, nat_eq, refl, Some};
ghost use Rattle.std.specs.Ordering.{nat_cmp};
ghost use Rattle.std.specs.Cmp.{partial_equiv_from_equiv};
ghost use Rattle.std.specs.Cmp.Lexicographic.{bytes_decides, pointwise, slice_cmp, nat_list_eq_equiv, nat_list_cmp_total, texts_po, texts_ties};
ghost use Rattle.std.specs.Hash as fed;
ghost use Rattle.std.specs.List.{list_all};
ghost use Rattle.std.proofs.Common.{ap};
ghost use Rattle.cal_types.specs.Text.{IsText, filled, is_text_byte};

use cal_errors::TinyStrError;
use std::cmp::Ordering;
use std::hash::{Hash, Hasher};
use std::marker::Model;
use std::str;

/// A text of at most `N` ASCII bytes, each from 1 to 127.
///
/// It compares and hashes like the text as a `str`. It corresponds to the type with this name in the crate `tinystr`.
#[derive(Clone, Copy, Debug)]
pub struct TinyAsciiStr<const N: usize> {
    bytes: [u8; N],
    len: usize,
}

impl<const N: usize> Model for TinyAsciiStr<N> {
    ghost use Rattle.std.specs.Prelude.{ℕ, List, length, take};
    ghost use Rattle.cal_types.specs.Text.{HoldsText, filled};

    ghost Value = { List ℕ };

    ghost view = { λ s. take s.len s.bytes };

    ghost invariant = { λ s. HoldsText N s.bytes s.len };

    ghost inverse = { λ t. record { bytes = filled N t; len = length t } };

    ghost use Rattle.std.proofs.Common.{length-take-le, sym};

    ghost inverse_ok = { λ s held i.
        record { bytes = sym held.zeros i; len = length-take-le s.len s.bytes held.fits i } };
}

impl<const N: usize> TinyAsciiStr<N> {
    /// Creates a text from bytes.
    ///
    /// # Errors
    ///
    /// The first of these that applies:
    ///
    /// - [`TinyStrError::TooLong`] if there are more than `N` bytes.
    /// - [`TinyStrError::NonAscii`] if a byte is 0 or above 127.
    ///
    /// # Examples
    ///
    /// ```
    /// let era = TinyAsciiStr::<16>::try_from_utf8(b"reiwa")?;
    /// assert!(rt; era.as_str() == "reiwa");
    /// ```
    pub fn try_from_utf8(bytes: &[u8]) -> Result<Self, TinyStrError>
        ensures value { IfOk result (λ t. t ≡ bytes.now) }
        ensures ok { IsOk result ↔ ((length bytes.now ≤ N) × IsText bytes.now) }
        ensures too_long { IsErrOf result TinyStrError.TooLong ↔ (N < length bytes.now) }
    {
        if bytes.len() > N {
            return Err(TinyStrError::TooLong);
        }
        if !is_text(bytes) {
            return Err(TinyStrError::NonAscii);
        }
        Ok(TinyAsciiStr::of_text(bytes))
    }

    /// Creates a text from bytes that are known to fit and to be ASCII.
    ///
    /// # Examples
    ///
    /// ```
    /// let eras = JapaneseEras::with_last_era(start, TinyAsciiStr::of_text(b"later"), 7)?;
    /// ```
    pub fn of_text(text: &[u8]) -> Self
        requires fits { length text.now ≤ N }
        requires text { IsText text.now }
        ensures { result ≡ text.now }
    {
        let n = text.len();
        let mut bytes = [0u8; N];
        bytes[..n].copy_from_slice(text);
        TinyAsciiStr { bytes, len: n }
    }

    /// Returns the text as a `str`.
    ///
    /// # Examples
    ///
    /// ```
    /// let era = TinyAsciiStr::<16>::try_from_utf8(b"reiwa")?;
    /// assert!(rt; era.as_str() == "reiwa");
    /// ```
    pub fn as_str(&self) -> &str
        ensures value { result.now ≡ self.now }
        ensures text { IsText result.now }
    {
        // Bytes below 128 are UTF-8.
        unsafe { str::from_utf8_unchecked(&self.bytes[..self.len]) }
    }

    /// Returns the bytes of the text.
    ///
    /// # Examples
    ///
    /// ```
    /// let era = TinyAsciiStr::<16>::try_from_utf8(b"reiwa")?;
    /// assert!(rt; era.as_bytes().first() == Some(&b'r'));
    /// ```
    pub fn as_bytes(&self) -> &[u8]
        ensures value { result.now ≡ self.now }
        ensures text { IsText result.now }
        ensures fits { length result.now ≤ N }
    {
        &self.bytes[..self.len]
    }

    /// Returns the bytes of the text, filled up with 0 to `N`.
    ///
    /// # Examples
    ///
    /// ```
    /// let era = TinyAsciiStr::<16>::try_from_utf8(b"reiwa")?;
    /// assert!(rt; era.all_bytes()[5] == 0);
    /// ```
    pub fn all_bytes(&self) -> &[u8; N]
        ensures { result.now ≡ filled N self.now }
    {
        &self.bytes
    }

    /// Returns the number of bytes, at most `N`.
    ///
    /// # Examples
    ///
    /// ```
    /// let era = TinyAsciiStr::<16>::try_from_utf8(b"reiwa")?;
    /// assert!(rt; era.len() == 5);
    /// ```
    pub fn len(&self) -> usize
        ensures value { result ≡ length self.now }
        ensures fits { result ≤ N }
    {
        self.len
    }

    /// Returns the same text with room for `M` bytes. The text must have at most `M` bytes.
    ///
    /// # Examples
    ///
    /// ```
    /// let era = TinyAsciiStr::<16>::try_from_utf8(b"reiwa")?;
    /// assert!(rt; era.len() == 5);
    /// let short: TinyAsciiStr<8> = era.resize();
    /// assert!(rt; short.as_str() == "reiwa");
    /// ```
    pub fn resize<const M: usize>(self) -> TinyAsciiStr<M>
        requires { length self ≤ M }
        ensures { result ≡ self.entry }
    {
        TinyAsciiStr::of_text(self.as_bytes())
    }
}

/// Returns whether every byte is from 1 to 127.
fn is_text(bytes: &[u8]) -> bool
    ensures { result ≡ list_all is_text_byte bytes.now }
{
    bytes.iter().all(|b| 0 < *b && *b < 128)
}

impl<const N: usize> PartialEq for TinyAsciiStr<N> {
    ghost eq = { λ s t. pointwise nat_eq s t };

    ghost laws = { partial_equiv_from_equiv nat_list_eq_equiv };

    fn eq(&self, other: &Self) -> bool {
        self.as_str() == other.as_str()
    }
}

impl<const N: usize> Eq for TinyAsciiStr<N> {
    ghost laws = { nat_list_eq_equiv };
}

impl<const N: usize> PartialOrd for TinyAsciiStr<N> {
    ghost partial_cmp = { λ s t. Some (slice_cmp nat_cmp s t) };

    ghost laws = { texts_po };

    fn partial_cmp(&self, other: &Self) -> Option<Ordering> {
        Some(self.cmp(other))
    }
}

impl<const N: usize> Ord for TinyAsciiStr<N> {
    ghost cmp = { λ s t. slice_cmp nat_cmp s t };

    ghost total = { nat_list_cmp_total };

    ghost matches_partial_cmp = { λ s t. refl };

    ghost matches_eq = { λ s t. texts_ties s t };

    fn cmp(&self, other: &Self) -> Ordering {
        self.as_str().cmp(other.as_str())
    }
}

impl<const N: usize> Hash for TinyAsciiStr<N> {
    ghost hash_input = { λ s. fed.str s };

    ghost respects_eq = { λ s t same. ap fed.str ((bytes_decides s t).0 same) };

    fn hash<H: Hasher>(&self, state: &mut H) {
        self.as_str().hash(state);
    }
}
