//! Reads a settings text, so that `bench/settings.sh` can measure what the reading costs.
//!
//! The text is the file whose path is the first word, or else standard input. The program prints how many accounts and
//! computers the settings have; where there are none, the error names the bad line. It stands on `w32t_settings`, whose
//! contracts say what a text says; nothing more is promised here.
#![tactic(auto)]

use std::io::Read;
use std::{env, fs};
use w32t_settings::{Settings, read_settings};

/// Bytes of a text that are handed over, at most: one more than the longest text has.
const MOST: usize = 16_777_217;

/// Reads the settings, and prints how many accounts and computers they have.
fn main(rt: HostRuntime) -> anyhow::Result<()> {
    let settings = settings(&rt)?;
    // Each account is a line.
    let accounts = settings.book.print(rt.alloc())?;
    println!(rt;
        "accounts={} computers={}",
        accounts.iter().filter(|byte| **byte == b'\n').count(),
        settings.directory.len()
    )?;
    Ok(())
}

/// What the text says. The text is gone then, so that the most memory is what the reading took.
fn settings(rt: &HostRuntime) -> anyhow::Result<Settings> {
    let text = text(rt)?;
    let settings = read_settings(rt.alloc(), &text[..text.len().min(MOST)])?;
    Ok(settings)
}

/// The whole text.
fn text(rt: &HostRuntime) -> anyhow::Result<Vec<u8>> {
    if let Some(path) = env::args(rt)?.nth(1) {
        return Ok(fs::read(rt, path.as_str())?);
    }
    let mut text = Vec::new(rt.alloc());
    rt.stdin().read_to_end(&mut text)?;
    Ok(text)
}
