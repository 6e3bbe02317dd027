ghost use Rattle.std.specs.Prelude.{◌≡◌, ◌≤◌, OnOk, OnErr};
ghost use Rattle.pec_outside.specs.Flow.{HasRisen, WrotePart, followed_by};
ghost use Rattle.pec_http.specs.declared.serving.Served.TheVariants as served;
ghost use Rattle.pec_serving.specs.Serving.{served_line};

use pec_http::Served;
use pec_outside::{Failed, Sink, write_all};

/// Writes the line of what became of a connection: `http STATUS`, `http read-fault` or `http write-fault`. It takes no
/// memory.
#[tactic(auto, unfolding(pec_script::specs::Texts::line_of))]
pub(crate) fn write_outcome<W: Sink>(out: &mut W, told: Served) -> Result<(), Failed>
    ensures ok { OnOk result (W.held out.new ≡ followed_by (W.held out.old) (served_line told)) }
    ensures err { OnErr result (WrotePart (W.held out.old) (W.held out.new) (served_line told)) }
    ensures later { W.faults out.old ≤ W.faults out.new }
    ensures cause { OnErr result (HasRisen (W.faults out.old) (W.faults out.new)) }
{
    match told {
        Served::Answered(code) => write_status(out, code),
        Served::ReadFault => write_all(out, b"http read-fault\n"),
        Served::WriteFault => write_all(out, b"http write-fault\n"),
    }
}

/// The line of a connection that was answered with this status.
fn write_status<W: Sink>(out: &mut W, code: u16) -> Result<(), Failed>
    ensures ok { OnOk result (W.held out.new ≡ followed_by (W.held out.old) (served_line (served.Answered code))) }
    ensures err { OnErr result (WrotePart (W.held out.old) (W.held out.new) (served_line (served.Answered code))) }
    ensures later { W.faults out.old ≤ W.faults out.new }
    ensures cause { OnErr result (HasRisen (W.faults out.old) (W.faults out.new)) }
{
    let mut buffer = itoa::Buffer::new();
    write_all(out, b"http ")?;
    write_all(out, buffer.format(code).as_bytes())?;
    write_all(out, b"\n")?;
    Ok(())
}
