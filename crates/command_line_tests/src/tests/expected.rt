//! What tests assert. Each kind of assertion is proved once, here.

use command_line::{CommandFault, CommandPart, command_text_fault, read_command_text};
use std::process::Abort;

/// That a command line has its first bad word at a place, where this may stand.
pub(super) fn assert_fault(rt: &impl Abort, words: &str, word: usize, part: CommandPart) {
    let found = command_text_fault(words);
    assert_eq!(rt; found, Some(CommandFault { word, part }), "at {words}");
}

/// That a command line names a command, and has no bad word.
pub(super) fn assert_command(rt: &impl Abort, words: &str) {
    assert!(rt; command_text_fault(words).is_none(), "at {words}");
    assert!(rt; read_command_text(words).is_some(), "at {words}");
}
