//! What holds of all settings texts.
ghost use Rattle.std.specs.Prelude.{◌≡◌, ◌≢◌, ℕ, List, Err, Result};
ghost use Rattle.w32t_settings.specs.declared.settings.Settings.{Settings};
ghost use Rattle.w32t_settings.specs.declared.settings.SettingsFault.{SettingsFault};
ghost use Rattle.w32t_settings.specs.Answer.{IsAnswer};

/// The laws of the text. There is nothing to do.
pub fn laws_of_settings()
    // A text has one answer at most, beside want of memory: one settings, or one least bad line.
    ensures one_answer { (text : List ℕ) (answer other : Result Settings SettingsFault)
        → IsAnswer text answer → IsAnswer text other
        → answer ≢ Err SettingsFault.NoMemory → other ≢ Err SettingsFault.NoMemory
        → answer ≡ other }
    // And no text is without one.
    ensures some_answer { (text : List ℕ)
        → ¬ ((answer : Result Settings SettingsFault) → IsAnswer text answer
        → answer ≡ Err SettingsFault.NoMemory) }
{}
