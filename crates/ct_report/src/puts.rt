ghost use Rattle.ct_base.specs.Outside.{Puts, PutsEach};
ghost use Rattle.ct_report.specs.Report.{text_of};

use ct_base::{Blob, Sink, SinkFault};

/// Puts each line in a put of its own, in order.
pub(crate) fn put_lines<S: Sink>(sink: &mut S, lines: &[Blob]) -> Result<(), SinkFault>
    ensures text { Puts (text_of lines.now) (S.tells sink.old) (S.tells sink.new) result }
    ensures each { PutsEach lines.now (S.tells sink.old) (S.tells sink.new) result }
{
    for line in lines {
        sink.put(line.bytes())?;
    }
    Ok(())
}
