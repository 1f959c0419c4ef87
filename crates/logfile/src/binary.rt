// The log for the driver: 44 bytes a record.
ghost use Rattle.std.specs.Prelude.{◌≡◌, ◌++◌, OnOk};
ghost use Rattle.logfile.specs.Bytes.{bytes_of, log_bytes, word_bytes};

use command::log::LogRecord;
use std::alloc::AllocError;

// Adds words, four bytes each, the lowest first. Short loops, here and below: one over both would take what is added as a closure.
fn add_words(out: &mut Vec<u8>, words: &[u32]) -> Result<(), AllocError>
    ensures { OnOk result (out.new.items ≡ out.old.items ++ word_bytes words.now) }
{
    for w in words {
        out.extend_from_slice(&w.to_le_bytes())?;
    }
    Ok(())
}

// Adds the 44 bytes of a record.
pub fn add_record(out: &mut Vec<u8>, r: &LogRecord) -> Result<(), AllocError>
    ensures { OnOk result (out.new.items ≡ out.old.items ++ bytes_of r.now) }
{
    out.extend_from_slice(&r.place.to_le_bytes())?;
    out.extend_from_slice(&[r.part, r.kind, r.refusal, r.detail, r.missed, r.count, 0, 0])?;
    add_words(out, &r.words)
}

// Adds the bytes of a whole log, record after record.
pub fn add_log(out: &mut Vec<u8>, log: &[LogRecord]) -> Result<(), AllocError>
    ensures { OnOk result (out.new.items ≡ out.old.items ++ log_bytes log.now) }
{
    for r in log {
        add_record(out, r)?;
    }
    Ok(())
}
