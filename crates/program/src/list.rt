// A show file in words, without a host.
use crate::read;
use command::decode::decode;
use console::fault::Fault;
use report::listing::Listed;
use showfile::file::ShowFile;
use std::io;
use std::io::{BufWriter, Write};

// One line a record on the chain, and a closing line.
fn lines<W: Write>(out: &mut W, file: ShowFile) -> io::Result<()> {
    for (place, bytes) in file {
        let listed = Listed { place, bytes };
        writeln!(out, "{listed}")?;
    }
    let records = file.remaining();
    let refused = file.filter(|(_, bytes)| decode(bytes).is_err()).count();
    writeln!(out, "{records} records on the chain, {refused} refused")
}

// Opens a show file and prints it.
pub(crate) fn show(rt: &HostRuntime, path: &str) -> Result<(), Fault> {
    if path.starts_with("--") {
        return Err(Fault::Usage);
    }
    let bytes = read::show(rt, path)?;
    let file = ShowFile::open(bytes.as_slice()).map_err(|why| read::about(
        rt.alloc(),
        path,
        |path| Fault::Show { path, why },
    ))?;
    let mut out = BufWriter::new(rt.alloc(), rt.stdout())?;
    lines(&mut out, file)?;
    Ok(out.flush()?)
}
