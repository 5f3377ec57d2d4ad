//! Corrected Persian years. Written by build/published.py: change rows/ and run it.

/// The first Persian year in which the rule of 33 years is corrected.
pub const FIRST_CORRECTED_PERSIAN_YEAR: i32 = 1502;

/// The last Persian year in which the rule of 33 years is corrected.
pub const LAST_CORRECTED_PERSIAN_YEAR: i32 = 2987;

/// The years in which the rule of 33 years is corrected by the astronomical Persian calendar.
pub(crate) static CORRECTED_YEARS: [i32; 78] = [
    1502, 1601, 1634, 1667, 1700, 1733, 1766, 1799, 1832, 1865, 1898, 1931, 1964, 1997, 2030, 2059,
    2063, 2096, 2129, 2158, 2162, 2191, 2195, 2224, 2228, 2257, 2261, 2290, 2294, 2323, 2327, 2356,
    2360, 2389, 2393, 2422, 2426, 2455, 2459, 2488, 2492, 2521, 2525, 2554, 2558, 2587, 2591, 2620,
    2624, 2653, 2657, 2686, 2690, 2719, 2723, 2748, 2752, 2756, 2781, 2785, 2789, 2818, 2822, 2847,
    2851, 2855, 2880, 2884, 2888, 2913, 2917, 2921, 2946, 2950, 2954, 2979, 2983, 2987,
];
