ghost use Rattle.std.specs.Prelude.{◌≡◌, ◌≤◌, OnOk, OnErr};
ghost use Rattle.pec_outside.specs.Flow.{followed_by, HasRisen, WrotePart};

use crate::streams::{Failed, Sink};

/// Writes all the bytes, in as many writes as the sink needs. After `Failed` a front of them is written, which may be
/// none or all of them.
pub fn write_all<W: Sink>(out: &mut W, bytes: &[u8]) -> Result<(), Failed>
    ensures ok { OnOk result (W.held out.new ≡ followed_by (W.held out.old) bytes.now) }
    ensures err { OnErr result (WrotePart (W.held out.old) (W.held out.new) bytes.now) }
    ensures kept { W.left out.new ≡ W.left out.old }
    ensures later { W.faults out.old ≤ W.faults out.new }
    ensures cause { OnErr result (HasRisen (W.faults out.old) (W.faults out.new)) }
{
    let mut rest = bytes;
    while !rest.is_empty() {
        let count = out.write(rest)?;
        rest = &rest[count..];
    }
    Ok(())
}
