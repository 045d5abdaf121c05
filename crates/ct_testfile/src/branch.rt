ghost use Rattle.std.specs.Prelude.{◌≡◌};
ghost use Rattle.ct_testfile.specs.Ifs.{is_taken};

/// What happens to the commands behind the last `if`, `elseif` or `else` of an open `if`.
#[derive(Clone, Copy)]
pub(crate) enum Branch {
    /// They are carried out.
    Taken,
    /// They are passed over, as are those of each branch in front; a later branch may be taken.
    Waiting,
    /// They are passed over, since an earlier branch was taken.
    Over,
    /// They stand behind `else` and are carried out.
    ElseTaken,
    /// They stand behind `else` and are passed over, since an earlier branch was taken.
    ElseOver,
    /// They are passed over, since the whole `if` stands in a branch that is passed over.
    Idle,
}

/// An `if` whose `endif` has not come yet.
#[derive(Clone, Copy)]
pub(crate) struct OpenIf {
    /// The line of the `if`.
    pub(crate) line: u32,
    pub(crate) branch: Branch,
}

/// Returns whether the commands of a branch are carried out.
pub(crate) fn is_taken(branch: Branch) -> bool
    ensures { result ≡ is_taken branch }
{
    match branch {
        Branch::Taken | Branch::ElseTaken => true,
        Branch::Waiting | Branch::Over | Branch::ElseOver | Branch::Idle => false,
    }
}
