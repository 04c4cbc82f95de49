//! The options behind the first word.
ghost use Rattle.std.specs.Prelude.{◌≡◌, ◌<◌, ◌≤◌, ◌↔◌, ℕ, List, Option, length, IfNone, IfSome, IsTrue};
ghost use Rattle.edge_traits.specs.declared.datagram.Addr.{Addr};
ghost use Rattle.w32tm_text.specs.declared.words.Command.{Command};
ghost use Rattle.w32tm_text.specs.Given.{AreComplete, AreOptions, IsComplete, IsFlag};
ghost use Rattle.w32tm_text.specs.Options.{GivesAt, IsMissing, IsSingle, SpellOptions, SpellsPlace, SpellsPortOption, SpellsTarget, SpellsTargetOption};
ghost use Rattle.w32tm_text.specs.Words.{texts};

use crate::words::behind;
use crate::{Action, Command};
use edge_traits::Addr;
use text_grammar::{cut, read_address, read_port};

/// The port of the service's calls, where the words name none.
const CALLS_PORT: u16 = 49_152;

/// The service of this machine.
const OWN_SERVICE: Addr = Addr {
    ip: 0x7F00_0001,
    port: CALLS_PORT,
};

/// An option, by its name.
#[derive(Clone, Copy, PartialEq, Eq)]
pub(crate) enum OptionName {
    /// `/config:`
    Config,
    /// `/keeper:`
    Keeper,
    /// `/capture:`
    Capture,
    /// `/port:`
    Port,
    /// `/clock:`
    Clock,
    /// `/rpcport:`
    RpcPort,
    /// `/computer:`
    Computer,
    /// `/nowait`
    NoWait,
    /// `/rediscover`
    Rediscover,
    /// `/source`
    Source,
    /// `/bits`
    Bits,
}

/// All options.
const OPTION_NAMES: [OptionName; 11] = [
    OptionName::Config,
    OptionName::Keeper,
    OptionName::Capture,
    OptionName::Port,
    OptionName::Clock,
    OptionName::RpcPort,
    OptionName::Computer,
    OptionName::NoWait,
    OptionName::Rediscover,
    OptionName::Source,
    OptionName::Bits,
];

impl OptionName {
    ghost use Rattle.std.specs.Prelude.{◌≡◌, ℕ, List, IfSome, IsSomeAnd};
    ghost use Rattle.w32tm_text.specs.Options.{Gives, is_bare, name_text};

    /// How a word begins that gives the option.
    fn text(self) -> &'static [u8]
        ensures { result.now ≡ name_text self }
    {
        match self {
            OptionName::Config => b"/config:",
            OptionName::Keeper => b"/keeper:",
            OptionName::Capture => b"/capture:",
            OptionName::Port => b"/port:",
            OptionName::Clock => b"/clock:",
            OptionName::RpcPort => b"/rpcport:",
            OptionName::Computer => b"/computer:",
            OptionName::NoWait => b"/nowait",
            OptionName::Rediscover => b"/rediscover",
            OptionName::Source => b"/source",
            OptionName::Bits => b"/bits",
        }
    }

    /// Whether the name is all that a word says that gives the option.
    fn is_bare(self) -> bool
        ensures { result ≡ is_bare self }
    {
        match self {
            OptionName::NoWait | OptionName::Rediscover | OptionName::Source | OptionName::Bits =>
                true,
            _ => false,
        }
    }

    /// The value behind the name in a word that gives the option. None where the word doesn't.
    fn value_in(self, word: &[u8]) -> Option<&[u8]>
        ensures read { IfSome result (λ value. Gives self word.now value.now) }
        ensures found { (value : List ℕ) → Gives self word.now value
            → IsSomeAnd result (λ v. v.now ≡ value) }
    {
        let value = behind(word, self.text())?;
        if self.is_bare() && !value.is_empty() {
            return None;
        }
        Some(value)
    }
}

/// Whether words with a command have an option.
#[derive(Clone, Copy, PartialEq, Eq)]
pub(crate) enum Rule {
    /// They have it.
    Required,
    /// They may have it.
    Allowed,
    /// They don't have it.
    Refused,
}

/// The command with this action and with the options that the words behind the first give. None where one of them gives
/// none that the command has, or gives one again, or where a required one is missing.
pub(crate) fn read_options(action: Action, words: &Vec<String>) -> Option<Command>
    ensures read { IfSome result (λ c. (c.action ≡ action)
        × SpellOptions c (texts words.now.items)) }
    ensures found { (c : Command) → c.action ≡ action → SpellOptions c (texts words.now.items)
        → result ≡ Some c }
{
    if !are_options(&action, words) || !are_complete(&action, words) {
        return None;
    }
    Some(Command {
        action,
        config: path_of(words, OptionName::Config)?,
        keeper: path_of(words, OptionName::Keeper)?,
        capture: path_of(words, OptionName::Capture)?,
        port: port_of(words, OptionName::Port)?,
        clock: path_of(words, OptionName::Clock)?,
        rpc_port: port_of(words, OptionName::RpcPort)?,
        computer: target_of(words)?,
    })
}

/// Whether each word behind the first gives an option that the command has.
fn are_options(action: &Action, words: &Vec<String>) -> bool
    ensures { IsTrue result ↔ AreOptions action.now (texts words.now.items) }
{
    for place in 1..words.len() {
        if !action.has_word(words[place].as_bytes()) {
            return false;
        }
    }
    true
}

/// Whether no option is given twice, and each that the command requires is given.
fn are_complete(action: &Action, words: &Vec<String>) -> bool
    ensures { IsTrue result ↔ AreComplete action.now (texts words.now.items) }
{
    OPTION_NAMES
        .iter()
        .all(|name| is_complete(action, words, *name))
}

/// Whether the option isn't given twice, and is given where the command requires it.
fn is_complete(action: &Action, words: &Vec<String>, name: OptionName) -> bool
    ensures { IsTrue result ↔ IsComplete action.now (texts words.now.items) name }
{
    is_single(words, name) && (action.rule(name) != Rule::Required || is_given(words, name))
}

impl Action {
    ghost use Rattle.std.specs.Prelude.{◌≡◌, ◌↔◌, IsTrue};
    ghost use Rattle.w32tm_text.specs.Given.{TakesOption};
    ghost use Rattle.w32tm_text.specs.Options.{GivesOneOf, rule_of};

    /// Whether the word gives an option that the command has.
    fn has_word(&self, word: &[u8]) -> bool
        ensures { IsTrue result ↔ GivesOneOf self.now word.now }
    {
        OPTION_NAMES.iter().any(|name| self.takes(*name, word))
    }

    /// Whether the word gives this option, and the command has it.
    fn takes(&self, name: OptionName, word: &[u8]) -> bool
        ensures { IsTrue result ↔ TakesOption self.now word.now name }
    {
        if self.rule(name) == Rule::Refused {
            return false;
        }
        name.value_in(word).is_some()
    }

    /// Whether words with this command have the option.
    fn rule(&self, name: OptionName) -> Rule
        ensures { result ≡ rule_of self.now name }
    {
        match self {
            Action::Sign(_) | Action::Show(_) => Rule::Refused,
            Action::Dc(_) | Action::Monitor => match name {
                OptionName::Config => Rule::Required,
                OptionName::Port => Rule::Allowed,
                _ => Rule::Refused,
            },
            Action::Member(_) => match name {
                OptionName::Config | OptionName::Keeper => Rule::Required,
                OptionName::Capture | OptionName::Port | OptionName::Clock => Rule::Allowed,
                _ => Rule::Refused,
            },
            Action::Replay => match name {
                OptionName::Config => Rule::Required,
                OptionName::Capture => Rule::Allowed,
                _ => Rule::Refused,
            },
            Action::Resync { wait, rediscover } => match name {
                OptionName::Computer => Rule::Allowed,
                OptionName::NoWait if !*wait => Rule::Required,
                OptionName::Rediscover if *rediscover => Rule::Required,
                _ => Rule::Refused,
            },
            Action::QuerySource => match name {
                OptionName::Source => Rule::Required,
                OptionName::Computer => Rule::Allowed,
                _ => Rule::Refused,
            },
            Action::QueryBits => match name {
                OptionName::Bits => Rule::Required,
                OptionName::Computer => Rule::Allowed,
                _ => Rule::Refused,
            },
            Action::Simulate(_, _) => match name {
                OptionName::Capture => Rule::Allowed,
                _ => Rule::Refused,
            },
            Action::Service(_) => match name {
                OptionName::Config | OptionName::Keeper => Rule::Required,
                OptionName::Capture | OptionName::Port | OptionName::Clock | OptionName::RpcPort =>
                    Rule::Allowed,
                _ => Rule::Refused,
            },
        }
    }
}

/// Whether some word gives the option.
pub(crate) fn is_given(words: &Vec<String>, name: OptionName) -> bool
    ensures { IsFlag name (texts words.now.items) result }
{
    given_from(words, name, 1).is_some()
}

/// Whether at most one word gives the option.
fn is_single(words: &Vec<String>, name: OptionName) -> bool
    ensures { IsTrue result ↔ IsSingle name (texts words.now.items) }
{
    match given_from(words, name, 1) {
        Some((place, _)) => given_from(words, name, place + 1).is_none(),
        None => true,
    }
}

/// The first word at this place or after it that gives the option: its place and the value in it.
fn given_from(words: &Vec<String>, name: OptionName, from: usize) -> Option<(usize, &[u8])>
    requires { 1 ≤ from }
    ensures within { IfSome result (λ found. found.0 < length words.now.items) }
    ensures after { IfSome result (λ found. from ≤ found.0) }
    ensures gives { IfSome result (λ found.
        GivesAt name (texts words.now.items) found.0 found.1.now) }
    ensures first { IfSome result (λ found. (place : ℕ) (value : List ℕ) → from ≤ place
        → place < found.0 → GivesAt name (texts words.now.items) place value → ⊥) }
    ensures none { IfNone result ((place : ℕ) (value : List ℕ) → from ≤ place
        → GivesAt name (texts words.now.items) place value → ⊥) }
{
    for place in from..words.len() {
        if let Some(value) = name.value_in(words[place].as_bytes()) {
            return Some((place, value));
        }
    }
    None
}

/// In which word the path of the option stands, where one gives it. None where that path is empty.
fn path_of(words: &Vec<String>, name: OptionName) -> Option<Option<usize>>
    ensures read { IfSome result (SpellsPlace name (texts words.now.items)) }
    ensures found { (place : Option ℕ) → IsSingle name (texts words.now.items)
        → SpellsPlace name (texts words.now.items) place → result ≡ Some place }
{
    match given_from(words, name, 1) {
        Some((place, path)) => (!path.is_empty()).then_some(Some(place)),
        None => Some(None),
    }
}

/// The port of the option, where a word gives it. None where what stands there is none.
fn port_of(words: &Vec<String>, name: OptionName) -> Option<Option<u16>>
    ensures read { IfSome result (SpellsPortOption name (texts words.now.items)) }
    ensures found { (port : Option ℕ) → IsSingle name (texts words.now.items)
        → SpellsPortOption name (texts words.now.items) port → result ≡ Some port }
{
    match given_from(words, name, 1) {
        Some((_, digits)) => Some(Some(read_port(digits)?)),
        None => Some(None),
    }
}

/// The service that is called. None where a word names one wrongly.
fn target_of(words: &Vec<String>) -> Option<Addr>
    ensures read { IfSome result (λ addr. SpellsTargetOption addr (texts words.now.items)) }
    ensures found { (addr : Addr) → IsSingle OptionName.Computer (texts words.now.items)
        → SpellsTargetOption addr (texts words.now.items) → result ≡ Some addr }
{
    match given_from(words, OptionName::Computer, 1) {
        Some((_, target)) => read_target(target),
        None => Some(OWN_SERVICE),
    }
}

/// The service at `ADDRESS` or `ADDRESS:PORT`.
fn read_target(text: &[u8]) -> Option<Addr>
    ensures read { IfSome result (λ addr. SpellsTarget addr text.now) }
    ensures found { (addr : Addr) → SpellsTarget addr text.now → result ≡ Some addr }
{
    match cut(text, b':') {
        None => Some(Addr {
            ip: read_address(text)?,
            port: CALLS_PORT,
        }),
        Some((address, port)) => Some(Addr {
            ip: read_address(address)?,
            port: read_port(port)?,
        }),
    }
}
