ghost use Rattle.std.specs.Prelude.{◌≡◌, ◌++◌, ◌∷◌, [], All, IfErr, IfOk, IsSomeAnd, IsUtf8, OnErr, OnOk, Some, slice_get, true};
ghost use Rattle.std.specs.Process.{SameDir, SameProgramAndArgs, command_args, command_dir, command_program};
ghost use Rattle.ct_edge.specs.declared.fault.StartFault.TheVariants as StartCause;
ghost use Rattle.ct_edge.specs.Process.{AreTexts, HasEnv, IsTextPair, found_as, is_bare, is_looked_up, launched_as, program_as};

use crate::fault::StartFault;
use crate::text::text_of;
use ct_base::{Name, NoMemory, Pair, join_path};
use ct_core::Request;
use std::alloc::{AllocError, Global};
use std::process::{Command, Stdio};
use std::{fs, rt};

/// The shell that reads a script.
const SHELL: &str = "/bin/sh";

/// How the system is asked to start a program.
#[derive(Clone, Copy, Debug)]
pub enum Launch {
    /// By itself.
    Program,
    /// As a script that the shell reads.
    Script,
}

/// Returns whether the program of a request is named without a `/`, and is a file of the folder in
/// which it starts.
///
/// Source: this project's choice, as ctest does it for `add_test(name program)`.
pub(crate) fn is_beside<R: rt::Files>(
    rt: &R,
    alloc: Global,
    request: &Request,
) -> Result<bool, NoMemory>
    ensures { IfOk result (λ beside. beside ≡ true → IsSomeAnd (slice_get request.now.command 0) (λ program. is_bare program ≡ true)) }
{
    let Some(program) = request.command.get(0) else {
        return Ok(false);
    };
    if !is_bare(program) {
        return Ok(false);
    }
    let path = join_path(alloc, &request.dir, program)?;
    Ok(is_file(rt, &path))
}

/// Returns whether the program of a request is looked up in the folders of PATH.
pub(crate) fn is_looked_up(request: &Request, beside: bool) -> bool
    ensures { result ≡ is_looked_up beside request.now.command }
{
    match request.command.get(0) {
        Some(program) => !beside && is_bare(program),
        None => false,
    }
}

/// Returns whether a program is named without a `/`.
fn is_bare(program: &Name) -> bool
    ensures { result ≡ is_bare program.now }
{
    !program.bytes().contains(&b'/')
}

/// Returns whether the path is a file. If the system tells nothing of the path, the answer is no.
fn is_file<R: rt::Files>(rt: &R, path: &Name) -> bool {
    match text_of(path) {
        Some(path) => fs::metadata(rt, path).is_ok_and(|found| found.is_file()),
        None => false,
    }
}

/// Makes the command as the system takes it, with a pipe for each of its two outputs.
///
/// A program name with `/` is read from the folder that the program starts in, unless it begins
/// with `/`. A name without `/` is the file of that name in this folder, if it is there. Else
/// it is looked up in the folders that the PATH of the program's own environment names.
/// A script is given to the shell with its arguments, as `execvp` of POSIX gives it.
#[tactic(auto, using(crate::proofs::LaunchLemmas::launched_more))]
pub(crate) fn command_of(
    alloc: Global,
    request: &Request,
    beside: bool,
    launch: Launch,
) -> Result<Command, StartFault>
    ensures call { IfOk result (λ command. command_program command ∷ command_args command ≡ launched_as launch (found_as beside request.now.command)) }
    ensures dir { IfOk result (λ command. command_dir command ≡ Some request.now.dir) }
    ensures env { IfOk result (λ command. HasEnv request.now.env command) }
    ensures texts { IfErr result (λ fault. AreTexts request.now → fault ≡ StartCause.NoMemory) }
{
    let Some((program, args)) = request.command.as_slice().split_first() else {
        return Err(StartFault::Failed);
    };
    let program = program_of(alloc, program, beside)?;
    let mut command = command_for(alloc, word_of(&program)?, launch)?;
    command.stdin(Stdio::null());
    command.stdout(Stdio::piped());
    command.stderr(Stdio::piped());
    add_arguments(&mut command, args)?;
    command.current_dir(word_of(&request.dir)?)?;
    set_environment(&mut command, request.env.as_slice())?;
    Ok(command)
}

/// Makes the command of a program without arguments.
fn command_for(alloc: Global, program: &str, launch: Launch) -> Result<Command, AllocError>
    ensures { IfOk result (λ command. command_program command ∷ command_args command ≡ launched_as launch (program.now ∷ [])) }
{
    match launch {
        Launch::Program => Command::new(alloc, program),
        Launch::Script => {
            let mut command = Command::new(alloc, SHELL)?;
            command.arg(program)?;
            Ok(command)
        }
    }
}

/// Returns the program as the system looks it up.
fn program_of(alloc: Global, program: &Name, beside: bool) -> Result<Name, NoMemory>
    ensures { IfOk result (λ name. name ≡ program_as beside program.now) }
{
    if !beside {
        return program.copy(alloc);
    }
    let mut name = Vec::from_slice(alloc, b"./")?;
    name.extend_from_slice(program.bytes())?;
    Ok(Name::from_vec(name))
}

fn add_arguments(command: &mut Command, args: &[Name]) -> Result<(), StartFault>
    ensures args { OnOk result (command_args command.new ≡ command_args command.old ++ args.now) }
    ensures program { OnOk result (command_program command.new ≡ command_program command.old) }
    ensures texts { IfErr result (λ fault. All IsUtf8 args.now → fault ≡ StartCause.NoMemory) }
{
    for arg in args {
        command.arg(word_of(arg)?)?;
    }
    Ok(())
}

/// Sets these variables of the program and no others; of several with the same name the last counts.
fn set_environment(command: &mut Command, env: &[Pair]) -> Result<(), StartFault>
    ensures env { OnOk result (HasEnv env.now command.new) }
    ensures call { OnOk result (SameProgramAndArgs command.old command.new) }
    ensures dir { OnOk result (SameDir command.old command.new) }
    ensures texts { IfErr result (λ fault. All IsTextPair env.now → fault ≡ StartCause.NoMemory) }
{
    command.env_clear();
    for pair in env {
        command.env(word_of(&pair.name)?, word_of(&pair.value)?)?;
    }
    Ok(())
}

/// Returns the word as text. A word that is not UTF-8 is a start that failed.
fn word_of(word: &Name) -> Result<&str, StartFault>
    ensures ok { IfOk result (λ text. text.now ≡ word.entry.now) }
    ensures text { OnErr result (IsUtf8 word.entry.now → ⊥) }
{
    text_of(word).ok_or(StartFault::Failed)
}
