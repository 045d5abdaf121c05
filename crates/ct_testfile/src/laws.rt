//! Laws of `if` and of limits, for readers: each function does nothing, and its clauses are the law.

ghost use Rattle.std.specs.Prelude.{◌≡◌, ◌<◌, ◌≤◌, ◌+◌, ◌^◌, ℕ, List, [], ◌∷◌, ◌++◌, length, None, Ok, Err};
ghost use Rattle.ct_base.specs.Outside.{Held};
ghost use Rattle.ct_lex.specs.Reads.{Ending};
ghost use Rattle.ct_lex.specs.declared.call.Call.{Call};
ghost use Rattle.ct_testfile.specs.Commands.{taken, with_command};
ghost use Rattle.ct_testfile.specs.Ifs.{flow_of};
ghost use Rattle.ct_testfile.specs.Laws.{AreWhole, IsIf, WrittenIf, all_calls, carried_behind, carried_chosen};
ghost use Rattle.ct_testfile.specs.Limits.{tree_limits};
ghost use Rattle.ct_testfile.specs.Tree.{FileReading, admitted, carried};
ghost use Rattle.ct_testfile.specs.declared.fault.ReadKind.TheVariants.{TooLong, TooManyCommands};
ghost use Rattle.ct_testfile.specs.declared.limits.Limits.{Limits};
ghost use Rattle.ct_testfile.specs.declared.opening.TestFile.{TestFile};
ghost use Rattle.ct_testfile.specs.declared.state.State.{State};

/// An `if` carries out the commands of its first branch whose condition holds, or those of `else` if
/// none holds, as if they alone stood in its place. Without `else`, it then carries out none.
///
/// No condition behind that branch is evaluated. Each condition that is evaluated counts as a
/// command, and so does an `else` whose commands are carried out. An `if` among the commands of a
/// branch stands in the file itself once that branch is chosen, and the law holds for it again.
/// Source: CMake manual, cmake-language(7), Conditional Blocks, and if.
pub fn if_carries_out_the_first_branch_that_holds()
    ensures { (read : FileReading) (limits : Limits) (held : Held) (file : TestFile) (state : State)
        (whole : WrittenIf) (rest : List Call) (ending : Ending) → IsIf whole →
        carried read limits held file [] state (all_calls whole ++ rest) ending
        ≡ carried_chosen read limits held file state whole rest ending }
{}

/// Commands with whole ifs are carried out as if they were all, and then the commands behind them.
pub fn commands_in_front_are_carried_out_first()
    ensures { (read : FileReading) (limits : Limits) (held : Held) (file : TestFile) (state : State)
        (front rest : List Call) (ending : Ending) → AreWhole front →
        carried read limits held file [] state (front ++ rest) ending
        ≡ carried_behind read limits held file state front rest ending }
{}

/// The commands of a branch may be whole ifs and other commands, in any order.
pub fn an_if_may_stand_in_a_branch()
    ensures other { (call : Call) → flow_of call.name ≡ None → AreWhole (call ∷ []) }
    ensures whole { (whole : WrittenIf) → IsIf whole → AreWhole (all_calls whole) }
    ensures joined { (front rest : List Call) → AreWhole front → AreWhole rest → AreWhole (front ++ rest) }
{}

/// 4,000,000 commands are carried out, and one more is refused.
pub fn up_to_4_000_000_commands_are_carried_out()
    ensures last { (state : State) → state.commands < 4000000 →
        with_command tree_limits state ≡ Ok (record state { commands = state.commands + 1 }) }
    ensures first { (state : State) → 4000000 ≤ state.commands →
        with_command tree_limits state ≡ Err TooManyCommands }
{}

/// The values of a tree have up to 512 MiB together, and a byte more is refused.
pub fn all_values_have_up_to_512_mib()
    ensures last { (bytes : ℕ) (state : State) → state.value_bytes + bytes ≤ 2 ^ 29 →
        taken tree_limits bytes state ≡ Ok (record state { value_bytes = state.value_bytes + bytes }) }
    ensures first { (bytes : ℕ) (state : State) → 2 ^ 29 < state.value_bytes + bytes →
        taken tree_limits bytes state ≡ Err TooLong }
{}

/// The test files of a tree have up to 256 MiB together, and a byte more is refused.
pub fn all_files_have_up_to_256_mib()
    ensures last { (text : List ℕ) (state : State) → length text ≤ 2 ^ 24 →
        state.file_bytes + length text ≤ 2 ^ 28 → admitted tree_limits text state
        ≡ Ok (record state { file_bytes = state.file_bytes + length text }) }
    ensures first { (text : List ℕ) (state : State) → 2 ^ 28 < state.file_bytes + length text →
        admitted tree_limits text state ≡ Err TooLong }
{}
