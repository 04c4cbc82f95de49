//! Settings from a text.
ghost use Rattle.std.specs.Prelude.{◌≡◌, ◌≢◌, ◌≤◌, ◌⊎◌, Result, length};
ghost use Rattle.w32t_settings.specs.declared.settings.Settings.{Settings};
ghost use Rattle.w32t_settings.specs.declared.settings.SettingsFault.{SettingsFault};
ghost use Rattle.w32t_settings.specs.Answer.{IsAnswer};

use crate::draft::Draft;
use crate::{Settings, SettingsFault};
use std::alloc::Global;
use text_grammar::next_line;

/// Bytes in a text, at most.
const LONGEST: usize = 16_777_216;

/// The settings that the text says.
///
/// A line is skipped where it is empty or begins with `#`. Each other line is an account line, a computer line, or
/// `SETTING=VALUE` with one of these, each at most once: Name (a name), Role (`Member`, `Controller`, `Pdc`) and Rid (a
/// decimal up to 4,294,967,295), which are required; Auth (`Short` or `Extended`, else Short); MaxPosPhaseCorrection,
/// MaxNegPhaseCorrection, MaxAllowedPhaseOffset (seconds up to 4,294,967,295); MinPollInterval, MaxPollInterval (0 to
/// 17); AnnounceFlags (0 to 15). What isn't set has the default of the role, wherever the line of Role stands.
///
/// [`SettingsFault::BadConfig`] names the least bad line, counted from 1 with skipped lines: one of another form, one
/// that repeats a setting, a RID or a computer's name, or the one in which byte 16,777,217 stands, comment or not.
/// Where no line is bad, the text is bad at the number of its lines and one more where a required setting is missing,
/// no account line has the RID of Rid, MinPollInterval is above MaxPollInterval, or Auth is Short and Rid is
/// 2,147,483,648 or more. [`SettingsFault::NoMemory`] may come instead of every answer. A text that goes on is handed
/// over as its first 16,777,217 bytes.
pub fn read_settings(alloc: Global, text: &[u8]) -> Result<Settings, SettingsFault>
    requires { length text.now ≤ 16777217 }
    // What is answered is true of the text.
    ensures answer { IsAnswer text.now result }
    // What is true of the text is answered, unless there is no memory.
    ensures exact { (answer : Result Settings SettingsFault) → IsAnswer text.now answer
        → answer ≢ Err SettingsFault.NoMemory
        → (result ≡ answer) ⊎ (result ≡ Err SettingsFault.NoMemory) }
{
    let mut draft = Draft::new(alloc);
    let mut left = text;
    let mut number = 0;
    while let Some((line, rest)) = next_line(left) {
        number += 1;
        draft.take(number, line)?;
        left = rest;
    }
    if text.len() > LONGEST {
        return Err(SettingsFault::BadConfig(number));
    }
    draft.finish().ok_or(SettingsFault::BadConfig(number + 1))
}
