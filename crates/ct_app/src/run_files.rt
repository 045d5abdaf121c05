ghost use Rattle.std.specs.Prelude.{◌≡◌, ◌∷◌, true, IfOk, codes};
ghost use Rattle.ct_base.specs.Path.{joined};
ghost use Rattle.ct_history.specs.Legal.{has_failing};
ghost use Rattle.ct_history.specs.Verdicts.{are_all_final};
ghost use Rattle.ct_app.specs.RunFiles.{ReadsCosts, WritesFiles, WritesText, costs_of, costs_path, done_of, file_fault_at as fault_of_files, new_costs};
ghost use Rattle.ct_app.specs.Steps.{WritesLog};
ghost use Rattle.ct_app.specs.declared.run_files.RunFileFault.TheVariants as Cause;

use ct_base::{Blob, Files, FilesFault, Name, NoMemory, join_path};
use ct_cost::{CostData, failed_log};
use ct_history::{History, Plan};
use std::alloc::Global;

/// The path of the cost data in the folder of a run, which is ctest's.
const COSTS: &[u8] = b"Testing/Temporary/CTestCostData.txt";

/// The path of the log of the failed tests in the folder of a run.
///
/// Source: CMake manual, ctest(1), --rerun-failed. The path is ctest's.
pub(crate) const LOG: &[u8] = b"Testing/Temporary/LastTestsFailed.log";

/// The greatest number of bytes of cost data that counts: 64 MiB.
///
/// Source: this project's choice.
const MOST_COST_BYTES: u64 = 67_108_864;

/// Why a file that a run reads or writes could not be used.
#[derive(Debug, Drop)]
pub enum RunFileFault {
    /// The path could not be read or written.
    Failed { path: Name },
    /// Memory ran out.
    NoMemory,
}

impl From<NoMemory> for RunFileFault {
    ghost from_gives = { λ _ e. e ≡ Cause.NoMemory };

    fn from(_e: NoMemory) -> RunFileFault {
        RunFileFault::NoMemory
    }
}

/// Reads the cost data that the last run left in a folder. An absent file, or a file above 64 MiB,
/// counts as empty. The files stay as they are.
///
/// Source: this project's choice.
pub fn read_costs<F: Files>(
    alloc: Global,
    files: &mut F,
    dir: &Name,
) -> Result<CostData, RunFileFault>
    ensures { ReadsCosts dir.now (F.tells files.old) (F.tells files.new) result }
{
    let path = join_path(alloc, dir, &Name::of(alloc, COSTS)?)?;
    match files.read(alloc, &path, MOST_COST_BYTES) {
        Ok(held) => Ok(costs_of(alloc, held)?),
        Err(fault) => Err(fault_at(path, fault)),
    }
}

/// Reads the cost data in the text at a path, cut at most one byte behind the limit.
fn costs_of(alloc: Global, held: Option<Blob>) -> Result<CostData, NoMemory>
    ensures { IfOk result (λ costs. costs ≡ costs_of held) }
{
    match held {
        Some(text) if text.bytes().len() as u64 <= MOST_COST_BYTES => {
            CostData::read(alloc, text.bytes())
        }
        _ => CostData::read(alloc, b""),
    }
}

/// Writes the files of a complete run for the next one: the cost data, and then, if a test failed,
/// the log of the failed tests. A run without tests writes nothing.
///
/// The paths are those of the plan's folder. It returns whether a test failed, which it knows from the
/// log without another pass.
///
/// Source: CMake manual, ctest(1), --rerun-failed; cmake-properties(7), COST.
pub fn write_files<F: Files>(
    alloc: Global,
    files: &mut F,
    costs: &CostData,
    plan: &Plan,
    history: &History,
) -> Result<bool, RunFileFault>
    requires ended { are_all_final plan.now history.now.entries.items ≡ true }
    ensures written { WritesFiles plan.now history.now.entries.items costs.now (F.tells files.old) (F.tells files.new) (done_of result) }
    ensures failed { IfOk result (λ failed. failed ≡ has_failing plan.now history.now.entries.items) }
{
    if plan.parts().tests.is_empty() {
        return Ok(false);
    }
    let log = failed_log(alloc, plan, history)?;
    write_costs(alloc, files, costs, plan, history)?;
    write_log(alloc, files, &plan.parts().dir, log.bytes())
}

/// Writes the cost data after a complete run.
fn write_costs<F: Files>(
    alloc: Global,
    files: &mut F,
    costs: &CostData,
    plan: &Plan,
    history: &History,
) -> Result<(), RunFileFault>
    requires ended { are_all_final plan.now history.now.entries.items ≡ true }
    ensures { WritesText (costs_path plan.now.dir) (new_costs plan.now history.now.entries.items costs.now) (F.tells files.old) (F.tells files.new) result }
{
    let text = text_after(alloc, costs, plan, history)?;
    write(alloc, files, &plan.parts().dir, COSTS, text.bytes())
}

/// Makes the text of the cost data after a complete run.
fn text_after(
    alloc: Global,
    costs: &CostData,
    plan: &Plan,
    history: &History,
) -> Result<Blob, NoMemory>
    requires ended { are_all_final plan.now history.now.entries.items ≡ true }
    ensures { IfOk result (λ text. text ≡ new_costs plan.now history.now.entries.items costs.now) }
{
    let after = costs.after(alloc, plan, history)?;
    after.text(alloc)
}

/// Writes the log of the failed tests, if it names a test, and returns whether it does.
fn write_log<F: Files>(
    alloc: Global,
    files: &mut F,
    dir: &Name,
    log: &[u8],
) -> Result<bool, RunFileFault>
    ensures { WritesLog dir.now log.now (F.tells files.old) (F.tells files.new) result }
{
    if log.is_empty() {
        return Ok(false);
    }
    write(alloc, files, dir, LOG, log)?;
    Ok(true)
}

/// Writes a text to the file of this name in a folder.
fn write<F: Files>(
    alloc: Global,
    files: &mut F,
    dir: &Name,
    name: &[u8],
    text: &[u8],
) -> Result<(), RunFileFault>
    ensures { WritesText (joined dir.now name.now) text.now (F.tells files.old) (F.tells files.new) result }
{
    let path = join_path(alloc, dir, &Name::of(alloc, name)?)?;
    match files.write(alloc, &path, text) {
        Ok(()) => Ok(()),
        Err(fault) => Err(fault_at(path, fault)),
    }
}

/// Makes the fault of a call on the files about this path.
pub(crate) fn fault_at(path: Name, fault: FilesFault) -> RunFileFault
    ensures { result ≡ fault_of_files path fault }
{
    match fault {
        FilesFault::Failed => RunFileFault::Failed { path },
        FilesFault::NoMemory => RunFileFault::NoMemory,
    }
}
