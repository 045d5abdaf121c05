ghost use Rattle.std.specs.Prelude.{◌≡◌, ◌++◌, [], List, ℕ, IfOk};
ghost use Rattle.ct_regex.specs.declared.pattern.Regex.{Regex as Pattern};
ghost use Rattle.ct_worker.specs.Gates.{seen_of, some_hits};
ghost use Rattle.ct_worker.specs.Listener.{AllStandFor, ListensFor};

use ct_base::{Ear, NoMemory};
use ct_core::Ended;
use ct_props::Props;
use ct_regex::{Regex, Scan};
use ct_verdict::Seen;
use std::alloc::Global;

/// Hears the output of one attempt into a scan of each pattern of its test.
///
/// It keeps nothing of what it hears, and takes all its memory when it is made.
#[derive(Drop)]
pub(crate) struct Listener<'a> {
    props: &'a Props,
    fail: Vec<Scan>,
    pass: Vec<Scan>,
    skip: Vec<Scan>,
}

impl<'a> Listener<'a> {
    /// Makes the listener of an attempt of the test with these properties.
    pub(crate) fn new(alloc: Global, props: &'a Props) -> Result<Listener<'a>, NoMemory>
        ensures hears { IfOk result (λ listener. ListensFor listener []) }
        ensures props { IfOk result (λ listener. listener.props.now ≡ props.now) }
    {
        Ok(Listener {
            props,
            fail: scans_of(alloc, props.fail.as_slice())?,
            pass: scans_of(alloc, props.pass.as_slice())?,
            skip: scans_of(alloc, props.skip.as_slice())?,
        })
    }

    /// Returns what is seen of an attempt that ended like this.
    pub(crate) fn seen(&self, ended: Ended) -> Seen
        ensures seen { (text : List ℕ) → ListensFor self.now text → result ≡ seen_of self.now.props.now text ended }
        ensures how { result.how ≡ ended.how }
    {
        Seen {
            how: ended.how,
            fail_hit: some_ended(&self.fail),
            pass_hit: some_ended(&self.pass),
            skip_hit: some_ended(&self.skip),
            micros: ended.micros,
        }
    }
}

impl<'a> Ear for Listener<'a> {
    ghost use Rattle.ct_props.specs.declared.props.Props.{Props};

    ghost stands_for = { ListensFor };

    ghost Kept = { Props };

    ghost kept = { λ listener. listener.props.now };

    fn hear(&mut self, piece: &[u8]) {
        feed_all(&mut self.fail, piece);
        feed_all(&mut self.pass, piece);
        feed_all(&mut self.skip, piece);
    }
}

/// Makes a scan of the empty text for each of these patterns.
fn scans_of(alloc: Global, patterns: &[Regex]) -> Result<Vec<Scan>, NoMemory>
    ensures { IfOk result (λ scans. AllStandFor patterns.now [] scans.items) }
{
    let mut scans = Vec::new(alloc);
    for pattern in patterns {
        scans.push(Scan::new(alloc, pattern)?)?;
    }
    Ok(scans)
}

/// Feeds the next piece of the text to each of these scans.
fn feed_all(scans: &mut [Scan], piece: &[u8])
    ensures { (patterns : List Pattern) (text : List ℕ) →
        AllStandFor patterns text scans.old → AllStandFor patterns (text ++ piece.now) scans.new }
{
    for scan in scans.iter_mut() {
        scan.feed(piece);
    }
}

/// Returns whether some scan tells a match, if the text ends here.
fn some_ended(scans: &[Scan]) -> bool
    ensures { (patterns : List Pattern) (text : List ℕ) →
        AllStandFor patterns text scans.now → result ≡ some_hits patterns text }
{
    for scan in scans {
        if scan.ended() {
            return true;
        }
    }
    false
}
