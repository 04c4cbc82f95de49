//! Reading the settings of a source.
ghost use Rattle.std.specs.Prelude.{◌≤◌, IfErr, IfOk};
ghost use Rattle.settings_source.specs.Reading.{FailsToConfigure, ReadsConfig, ReadsText};

use edge_traits::{Source, Take};
use std::alloc::Global;
use w32t_settings::{Settings, SettingsFault, read_settings};

/// The most bytes that are read of a text: one more than the longest has, so that a longer one is seen to be longer.
const TEXT_LIMIT: usize = 16_777_217;

/// The most bytes that are read at once.
const PIECE_LEN: usize = 4096;

/// Why a source gives no settings.
#[derive(Clone, Copy, Debug, PartialEq, Eq)]
pub enum ConfigFault {
    /// The text's least bad line, counted from 1.
    BadConfig(u32),
    /// A read of the source failed.
    ReadFault,
    /// There is no memory for the text or its settings.
    NoMemory,
}

/// The settings of the text that the source gives, read to its end or to byte 16,777,217.
pub fn settings_from<S: Source>(alloc: Global, source: &mut S) -> Result<Settings, ConfigFault>
    ensures reads { ReadsConfig result (S.left source.old) (S.left source.new)
        (S.faults source.old) (S.faults source.new) }

    // No count falls.
    ensures count { S.faults source.old ≤ S.faults source.new }
{
    let text = read_text(alloc, source)?;
    match read_settings(alloc, &text) {
        Ok(settings) => Ok(settings),
        Err(SettingsFault::BadConfig(line)) => Err(ConfigFault::BadConfig(line)),
        Err(SettingsFault::NoMemory) => Err(ConfigFault::NoMemory),
    }
}

/// Reads the text.
fn read_text<S: Source>(alloc: Global, source: &mut S) -> Result<Vec<u8>, ConfigFault>
    ensures text { IfOk result (λ text. ReadsText (S.left source.old) (S.left source.new)
        (S.faults source.old) (S.faults source.new) text.items) }
    ensures fault { IfErr result (λ fault. FailsToConfigure fault (S.left source.old) (S.left source.new)
        (S.faults source.old) (S.faults source.new)) }
{
    let mut text = Vec::new(alloc);
    let mut piece = [0; PIECE_LEN];
    while text.len() < TEXT_LIMIT {
        let room = PIECE_LEN.min(TEXT_LIMIT - text.len());
        match source.read(&mut piece[..room]) {
            Take::Bytes(count) => {
                if text.extend_from_slice(&piece[..count]).is_err() {
                    return Err(ConfigFault::NoMemory);
                }
            }
            Take::End => break,
            Take::Failed => return Err(ConfigFault::ReadFault),
        }
    }
    Ok(text)
}
