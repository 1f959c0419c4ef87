// The words of the command line and the files that they name.
use console::fault::Fault;
use console::options::Options;
use rig::parse::parse;
use rig::whole_setup::Setup;
use showfile::file::ShowFile;
use std::alloc::Global;
use std::{env, fs};

// The words of the command line, without the program's own name.
pub(crate) fn words(rt: &HostRuntime) -> Result<Vec<String>, Fault> {
    Ok(env::args(rt)?.skip(1).collect(rt.alloc())?)
}

// What these words ask. A setup's path never begins as an option does.
pub(crate) fn options(heap: Global, words: Vec<String>) -> Result<Options, Fault> {
    let options = Options::read(heap, words)?;
    if options.setup.as_str().starts_with("--") {
        return Err(Fault::Usage);
    }
    Ok(options)
}

// The fault that is made of a file's path; or there is no memory for the path.
pub(crate) fn about<F: FnOnce(String) -> Fault>(heap: Global, path: &str, fault: F) -> Fault
    requires { F.IsAlwaysCallable fault }
{
    match String::from_str(heap, path) {
        Ok(path) => fault(path),
        Err(error) => Fault::from(error),
    }
}

// The text of the setup.
pub(crate) fn text(rt: &HostRuntime, path: &str) -> Result<String, Fault> {
    fs::read_to_string(rt, path).map_err(|error| about(
        rt.alloc(),
        path,
        |path| Fault::File { path, error },
    ))
}

// The setup of a text.
pub(crate) fn setup(heap: Global, path: &str, text: &str) -> Result<Setup, Fault> {
    parse(text).map_err(|error| about(heap, path, |path| Fault::Setup { path, error }))
}

// The bytes of a show file that can be opened.
pub(crate) fn show(rt: &HostRuntime, path: &str) -> Result<Vec<u8>, Fault> {
    let bytes = fs::read(rt, path).map_err(|error| about(
        rt.alloc(),
        path,
        |path| Fault::File { path, error },
    ))?;
    let _file = ShowFile::open(bytes.as_slice()).map_err(|why| about(
        rt.alloc(),
        path,
        |path| Fault::Show { path, why },
    ))?;
    Ok(bytes)
}

// The bytes of each show file, all of which can be opened.
pub(crate) fn shows(rt: &HostRuntime, paths: &[String]) -> Result<Vec<Vec<u8>>, Fault> {
    paths
        .iter()
        .map(|path| show(rt, path.as_str()))
        .try_collect(rt.alloc())
}
