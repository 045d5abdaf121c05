ghost use Rattle.std.specs.Prelude.{◌≡◌, None, OnOk};
ghost use Rattle.ct_edge.specs.Heard.{Hears};

use crate::fault::StartFault;
use crate::keep::Keep;
use crate::transfer::write_whole;
use ct_base::{Blob, Ear};
use std::alloc::Global;
use std::fs::File;
use std::io::{ErrorKind, Read, Seek, SeekFrom};
use std::os::unix::fs::OpenOptionsExt;
use std::{env, fs, io, process};

/// How many bytes of the file are read at a time.
const PIECE: usize = 65_536;

/// How many names are tried for the file, before it loses its name.
const MOST_NAMES: u32 = 1000;

/// Keeps bytes in memory up to a bound, and those behind them in an unnamed file of the system's
/// folder for temporary files.
///
/// If the file cannot be made, or takes no more, memory has to take the rest.
#[derive(Drop)]
pub struct Spool {
    rt: HostRuntime,
    /// The first bytes.
    front: Blob,
    /// How many bytes at most go to the front.
    most: usize,
    /// The file with the bytes behind the front, if it was made.
    file: Option<File>,
    /// How many bytes the file has taken.
    filed: u64,
    /// Whether the file takes no more.
    is_full: bool,
    /// The bytes behind those of the file.
    rest: Blob,
}

impl Spool {
    /// Makes a spool that keeps so many bytes in memory at most, while the file takes the others.
    pub fn new(rt: HostRuntime, alloc: Global, most: usize) -> Spool {
        Spool {
            rt,
            front: Blob::new(alloc),
            most,
            file: None,
            filed: 0,
            is_full: false,
            rest: Blob::new(alloc),
        }
    }

    /// Returns whether the file took the piece. It is made for the first one.
    fn files(&mut self, piece: &[u8]) -> bool {
        if self.is_full {
            return false;
        }
        if self.file.is_none() {
            self.file = unnamed_file(self.rt).ok();
        }
        let taken = match &mut self.file {
            Some(file) => write_whole(file, piece).is_ok(),
            None => false,
        };
        if taken {
            self.filed = self.filed.saturating_add(piece.len() as u64);
        } else {
            self.is_full = true;
        }
        taken
    }

    /// Lets the ear hear what the file has taken.
    #[tactic(auto, using(crate::proofs::HeardLemmas::hears_none))]
    fn hand_on_filed<E: Ear>(&self, ear: &mut E) -> io::Result<()>
        ensures heard { OnOk result (Hears None None (E.stands_for ear.old) (E.stands_for ear.new)) }
        ensures kept { E.kept ear.new ≡ E.kept ear.old }
    {
        match &self.file {
            Some(file) => hear_file(file, self.filed, ear),
            None => Ok(()),
        }
    }
}

impl Keep for Spool {
    ghost holds = { λ _. None };

    fn keep(&mut self, piece: &[u8]) -> Result<(), StartFault> {
        let room = self.most.saturating_sub(self.front.bytes().len());
        if self.filed == 0 && !self.is_full && piece.len() <= room {
            self.front.append(piece)?;
        } else if !self.files(piece) {
            self.rest.append(piece)?;
        }
        Ok(())
    }

    fn hand_on<E: Ear>(&self, ear: &mut E) -> Result<(), StartFault> {
        ear.hear(self.front.bytes());
        self.hand_on_filed(ear)?;
        ear.hear(self.rest.bytes());
        Ok(())
    }
}

/// Lets the ear hear so many bytes from the beginning of the file on.
#[tactic(auto, using(crate::proofs::HeardLemmas::hears_none))]
fn hear_file<E: Ear>(file: &File, count: u64, ear: &mut E) -> io::Result<()>
    ensures heard { OnOk result (Hears None None (E.stands_for ear.old) (E.stands_for ear.new)) }
    ensures kept { E.kept ear.new ≡ E.kept ear.old }
{
    let mut file = file;
    let mut room = [0u8; PIECE];
    let mut left = count;
    file.seek(SeekFrom::Start(0))?;
    for _ in 0..u64::MAX {
        if left == 0 {
            return Ok(());
        }
        let most = left.min(PIECE as u64) as usize;
        let got = file.read(&mut room[..most])?;
        if got == 0 {
            break;
        }
        ear.hear(&room[..got]);
        left = left.saturating_sub(got as u64);
    }
    Err(io::Error::from(ErrorKind::UnexpectedEof))
}

/// Makes a file in the system's folder for temporary files, and takes its name away.
fn unnamed_file(rt: HostRuntime) -> io::Result<File> {
    let folder = env::temp_dir(&rt)?;
    let own = process::id(rt.process());
    for number in 0..MOST_NAMES {
        let name = format!(in rt.alloc(); "ctest-{own}-{number}")?;
        let path = folder.join(rt.alloc(), name.as_str())?;
        let mut options = File::options();
        options.read(true).write(true).create_new(true).mode(0o600);
        match options.open(&rt, path.as_path()) {
            Ok(file) => {
                fs::remove_file(&rt, path.as_path())?;
                return Ok(file);
            }
            Err(fault) if fault.kind() == ErrorKind::AlreadyExists => {}
            Err(fault) => return Err(fault),
        }
    }
    Err(io::Error::from(ErrorKind::AlreadyExists))
}
