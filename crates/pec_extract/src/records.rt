ghost use Rattle.std.specs.Prelude.{◌≡◌, map, IfOk};
ghost use Rattle.pec_extract.specs.Records.{record_text};

use csv::WriterBuilder;
use pec_types::NoMemory;
use std::alloc::Global;

/// The text of the record with these fields.
pub(crate) fn record_text(alloc: Global, fields: &[&[u8]]) -> Result<Vec<u8>, NoMemory>
    ensures { IfOk result (λ text. text.items ≡ record_text (map (λ field. field.now) fields.now)) }
{
    let mut writer = WriterBuilder::new().from_writer(Vec::new(alloc));
    // A record in memory can fail for want of it alone.
    if writer.write_fields(fields).is_err() {
        return Err(NoMemory);
    }
    match writer.into_inner() {
        Ok(text) => Ok(text),
        Err(_) => Err(NoMemory),
    }
}
