ghost use Rattle.std.specs.Prelude.{◌≡◌};
ghost use Rattle.ct_testfile.specs.Commands.{command_of};
ghost use Rattle.ct_testfile.specs.Ifs.{flow_of};

/// A command that a test file may use, other than those of `if`.
#[derive(Clone, Copy)]
pub(crate) enum Command {
    AddTest,
    SetTestsProperties,
    SetDirectoryProperties,
    Subdirs,
    Include,
    Set,
    /// Any other name.
    Unknown,
}

/// A command of an `if`.
#[derive(Clone, Copy)]
pub(crate) enum Flow {
    If,
    ElseIf,
    Else,
    EndIf,
}

/// Reads the name of a command, which is in lower case.
pub(crate) fn command_of(name: &[u8]) -> Command
    ensures { result ≡ command_of name.now }
{
    if name == b"add_test".as_slice() {
        Command::AddTest
    } else if name == b"set_tests_properties".as_slice() {
        Command::SetTestsProperties
    } else if name == b"set_directory_properties".as_slice() {
        Command::SetDirectoryProperties
    } else if name == b"subdirs".as_slice() {
        Command::Subdirs
    } else if name == b"include".as_slice() {
        Command::Include
    } else if name == b"set".as_slice() {
        Command::Set
    } else {
        Command::Unknown
    }
}

/// Reads the name of a command of an `if`, which is in lower case.
pub(crate) fn flow_of(name: &[u8]) -> Option<Flow>
    ensures { result ≡ flow_of name.now }
{
    if name == b"if".as_slice() {
        Some(Flow::If)
    } else if name == b"elseif".as_slice() {
        Some(Flow::ElseIf)
    } else if name == b"else".as_slice() {
        Some(Flow::Else)
    } else if name == b"endif".as_slice() {
        Some(Flow::EndIf)
    } else {
        None
    }
}
