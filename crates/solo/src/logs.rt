// Records of a log compared and counted.
ghost use Rattle.std.specs.Prelude.{◌≡◌, Decides};
ghost use Rattle.solo.specs.Logs.{refusals};

use command::log::LogRecord;

// Whether two records of a log are the same.
pub fn same(a: &LogRecord, b: &LogRecord) -> bool
    ensures { Decides result (a.now ≡ b.now) }
{
    a == b
}

// How many records of a log have a refusal. A record has the byte 0 where it has none.
pub fn refused(log: &[LogRecord]) -> usize
    ensures { result ≡ refusals log.now }
{
    log.iter().filter(|r| r.refusal != 0).count()
}
