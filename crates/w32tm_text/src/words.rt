//! The words of the command line.
ghost use Rattle.std.specs.Prelude.{◌≡◌, ◌≤◌, ℕ, List, Option, ◌++◌, ◌∷◌, ◌/◌, length, decimal, IsTrue, IfOk, IfSome, IsSomeAnd, Some, Ok, codes};
ghost use Rattle.hex.specs.Hex.{decode_of};
ghost use Rattle.key_book.specs.declared.account.Account.{Account};
ghost use Rattle.w32tm_text.specs.declared.words.Action.{Action};
ghost use Rattle.w32tm_text.specs.declared.words.Command.{Command};
ghost use Rattle.w32tm_text.specs.Given.{SpellsFlags};
ghost use Rattle.w32tm_text.specs.Words.{SpellsAccount, SpellsAction, SpellsCommand, SpellsDatagram, SpellsKeys, SpellsScript, texts};

use crate::options::{OptionName, is_given, read_options};
use edge_traits::{Addr, DATAGRAM_LEN, Datagram};
use key_book::Account;
use text_grammar::{cut, read_decimal, read_key};

/// The word of a monitor.
const MONITOR: &[u8] = b"/monitor";

/// The word of a replay.
const REPLAY: &[u8] = b"/replay";

/// The word of a call for the time.
const RESYNC: &[u8] = b"/resync";

/// The word of a call that asks.
const QUERY: &[u8] = b"/query";

/// The most turns of a run.
const MOST_TURNS: u32 = 1_000_000;

/// The most sessions of a service.
const MOST_SESSIONS: u32 = 10_000;

/// The most operations of a simulation.
const MOST_OPERATIONS: u32 = 100_000;

/// What is to be done.
#[derive(Drop)]
pub enum Action {
    /// `/sign:RID:KEY` or `/sign:RID:KEY:PREVIOUS`: answer the time request on the input under this account.
    Sign(Account),
    /// `/show:HEX`: print the fields of the message that these bytes spell.
    Show(Datagram),
    /// `/dc:TURNS`: serve the accounts of the settings, for so many turns.
    Dc(u32),
    /// `/member:TURNS`: keep the clock by the partners of the settings, for so many turns.
    Member(u32),
    /// `/monitor`: ask each computer of the settings for the time, once.
    Monitor,
    /// `/replay`: print what a member does with the events of a capture.
    Replay,
    /// `/resync`: have a service ask for the time, and wait for its result or not. It may look for its partners anew
    /// first.
    Resync { wait: bool, rediscover: bool },
    /// `/query /source`: ask a service for the name of its computer.
    QuerySource,
    /// `/query /bits`: ask a service for what its computer announces.
    QueryBits,
    /// `/simulate:SEED:N`: run a member and a controller in a simulated world, by the script of this seed, for so many
    /// operations.
    Simulate(u32, u32),
    /// `/service:SESSIONS`: keep the clock by the partners of the settings, and answer so many sessions of remote calls.
    Service(u32),
}

/// What the words say.
#[derive(Drop)]
pub struct Command {
    /// What is to be done.
    pub action: Action,
    /// The word in which the path of the settings text stands, behind `/config:`. Words are counted from 0, with the
    /// command.
    pub config: Option<usize>,
    /// The word in which the path of the keeper's file stands, behind `/keeper:`.
    pub keeper: Option<usize>,
    /// The word in which the path of the capture stands, behind `/capture:`.
    pub capture: Option<usize>,
    /// The local port of the link, 1 to 65,535, of `/port:`.
    pub port: Option<u16>,
    /// The word in which the path of the clock's samples stands, behind `/clock:`.
    pub clock: Option<usize>,
    /// The local port of a service's remote calls, 1 to 65,535, of `/rpcport:`.
    pub rpc_port: Option<u16>,
    /// The service that `/resync` and `/query` call, of `/computer:`; 127.0.0.1:49152 where no word names one.
    pub computer: Addr,
}

/// The words spell no command.
#[derive(Clone, Copy, Debug, PartialEq, Eq)]
pub struct BadWords;

/// The command that the words behind the program's name spell.
///
/// The first word says what is to be done:
///
/// - `/sign:RID:KEY` or `/sign:RID:KEY:PREVIOUS`. RID is a decimal without sign or leading zero, at most
///   4,294,967,295, and a key is 32 hexadecimal digits in either case.
/// - `/show:HEX`, where HEX is an even number of hexadecimal digits in either case, 0 to 512.
/// - `/dc:TURNS`, where TURNS is a decimal of 1 to 1,000,000 without sign or leading zero. It requires `/config:PATH`
///   and allows `/port:N`.
/// - `/member:TURNS`, with TURNS as for `/dc`. It requires `/config:PATH` and `/keeper:PATH`, and allows
///   `/capture:PATH`, `/port:N` and `/clock:PATH`.
/// - `/monitor`, which requires `/config:PATH` and allows `/port:N`.
/// - `/replay`, which requires `/config:PATH` and allows `/capture:PATH`.
/// - `/resync`, which allows `/computer:TARGET`, `/nowait` and `/rediscover`.
/// - `/query`, which requires `/source` or `/bits`, not both, and allows `/computer:TARGET`.
/// - `/simulate:SEED:N`, where SEED is a decimal of at most 4,294,967,295 and N one of 1 to 100,000, both without sign or
///   leading zero. It allows `/capture:PATH`.
/// - `/service:SESSIONS`, where SESSIONS is a decimal of 1 to 10,000 without sign or leading zero. It requires
///   `/config:PATH` and `/keeper:PATH`, and allows `/capture:PATH`, `/port:N`, `/clock:PATH` and `/rpcport:N`.
///
/// The options stand behind it in any order, each at most once, and no others. A path is any text that isn't empty, and
/// N a decimal of 1 to 65,535 without sign or leading zero. TARGET is `ADDRESS` or `ADDRESS:PORT`: four decimals of 0 to
/// 255 joined by dots, and a port as N; where there is none it is 49152. All other words are `BadWords`.
pub fn read_words(words: &Vec<String>) -> Result<Command, BadWords>
    ensures read { IfOk result (λ c. SpellsCommand c (texts words.now.items)) }
    ensures found { (c : Command) → SpellsCommand c (texts words.now.items) → result ≡ Ok c }
{
    read_command(words).ok_or(BadWords)
}

/// The command that the words spell.
fn read_command(words: &Vec<String>) -> Option<Command>
    ensures read { IfSome result (λ c. SpellsCommand c (texts words.now.items)) }
    ensures found { (c : Command) → SpellsCommand c (texts words.now.items) → result ≡ Some c }
{
    let first = words.as_slice().first()?;
    read_options(read_action(first.as_bytes(), words)?, words)
}

/// What the first word asks for. Where it begins several commands, the options say which of them.
fn read_action(word: &[u8], words: &Vec<String>) -> Option<Action>
    ensures read { IfSome result (λ a. SpellsAction a word.now) }
    ensures found { (a : Action) → SpellsAction a word.now → SpellsFlags a (texts words.now.items)
        → result ≡ Some a }
{
    if let Some(text) = behind(word, b"/sign:") {
        return Some(Action::Sign(read_account(text)?));
    }
    if let Some(digits) = behind(word, b"/show:") {
        return Some(Action::Show(read_datagram(digits)?));
    }
    if let Some(turns) = behind(word, b"/dc:") {
        return Some(Action::Dc(read_count(turns, MOST_TURNS)?));
    }
    if let Some(turns) = behind(word, b"/member:") {
        return Some(Action::Member(read_count(turns, MOST_TURNS)?));
    }
    if let Some(script) = behind(word, b"/simulate:") {
        let (seed, operations) = read_script(script)?;
        return Some(Action::Simulate(seed, operations));
    }
    if let Some(sessions) = behind(word, b"/service:") {
        return Some(Action::Service(read_count(sessions, MOST_SESSIONS)?));
    }
    if word == MONITOR {
        Some(Action::Monitor)
    } else if word == REPLAY {
        Some(Action::Replay)
    } else if word == RESYNC {
        Some(read_resync(words))
    } else if word == QUERY {
        Some(read_query(words))
    } else {
        None
    }
}

/// How a service is to ask for the time.
fn read_resync(words: &Vec<String>) -> Action
    ensures spelled { SpellsAction result (codes "/resync") }
    ensures found { (a : Action) → SpellsAction a (codes "/resync")
        → SpellsFlags a (texts words.now.items) → result ≡ a }
{
    Action::Resync {
        wait: !is_given(words, OptionName::NoWait),
        rediscover: is_given(words, OptionName::Rediscover),
    }
}

/// What a service is asked. Where neither option is given it's the bits, whose option is required then.
fn read_query(words: &Vec<String>) -> Action
    ensures spelled { SpellsAction result (codes "/query") }
    ensures found { (a : Action) → SpellsAction a (codes "/query")
        → SpellsFlags a (texts words.now.items) → result ≡ a }
{
    if is_given(words, OptionName::Source) {
        Action::QuerySource
    } else {
        Action::QueryBits
    }
}

/// What stands behind the name with which a word begins. None where it begins otherwise.
pub(crate) fn behind<'a>(word: &'a [u8], name: &[u8]) -> Option<&'a [u8]>
    ensures read { IfSome result (λ text. word.now ≡ name.now ++ text.now) }
    ensures found { (text : List ℕ) → word.now ≡ name.now ++ text
        → IsSomeAnd result (λ t. t.now ≡ text) }
{
    word.strip_prefix(name)
}

/// A number of 1 to this one.
fn read_count(text: &[u8], most: u32) -> Option<u32>
    ensures read { IfSome result (λ n. (1 ≤ n) × (n ≤ most) × (text.now ≡ decimal n)) }
    ensures found { (n : ℕ) → 1 ≤ n → n ≤ most → text.now ≡ decimal n → result ≡ Some n }
{
    match read_decimal(text) {
        Some(count) if count > 0 && count <= most => Some(count),
        _ => None,
    }
}

/// The seed and the number of operations of `SEED:N`.
fn read_script(text: &[u8]) -> Option<(u32, u32)>
    ensures read { IfSome result (λ s. SpellsScript s.0 s.1 text.now) }
    ensures found { (seed operations : ℕ) → SpellsScript seed operations text.now
        → result ≡ Some record { 0 = seed; 1 = operations } }
{
    let (seed, operations) = cut(text, b':')?;
    Some((
        read_decimal(seed)?,
        read_count(operations, MOST_OPERATIONS)?,
    ))
}

/// The account of `RID:KEY` or `RID:KEY:PREVIOUS`.
fn read_account(text: &[u8]) -> Option<Account>
    ensures read { IfSome result (λ a. SpellsAccount a text.now) }
    ensures found { (a : Account) → SpellsAccount a text.now → result ≡ Some a }
{
    let (rid, keys) = cut(text, b':')?;
    let rid = read_decimal(rid)?;
    let (current, previous) = read_word_keys(keys)?;
    Some(Account {
        rid,
        current,
        previous,
    })
}

/// The current key, and the previous one behind a colon where there is one.
fn read_word_keys(text: &[u8]) -> Option<([u8; 16], Option<[u8; 16]>)>
    ensures read { IfSome result (λ keys. SpellsKeys keys.0 keys.1 text.now) }
    ensures found { (current : List ℕ) (previous : Option (List ℕ))
        → SpellsKeys current previous text.now
        → result ≡ Some record { 0 = current; 1 = previous } }
{
    match cut(text, b':') {
        None => Some((read_key(text)?, None)),
        Some((current, previous)) => Some((read_key(current)?, Some(read_key(previous)?))),
    }
}

/// The bytes that an even number of digits spell, at most 512.
fn read_datagram(digits: &[u8]) -> Option<Datagram>
    ensures read { IfSome result (λ bytes. SpellsDatagram bytes digits.now) }
    ensures found { (bytes : List ℕ) → SpellsDatagram bytes digits.now → result ≡ Some bytes }
{
    if digits.len() > 2 * DATAGRAM_LEN {
        return None;
    }
    let mut bytes = [0; DATAGRAM_LEN];
    let bytes = &mut bytes[..digits.len() / 2];
    if !decode(digits, bytes) {
        return None;
    }
    Some(Datagram::from_slice(bytes))
}

/// Whether digits spell bytes, which then stand in the slice.
fn decode(digits: &[u8], bytes: &mut [u8]) -> bool
    requires { length bytes.old ≡ length digits.now / 2 }
    ensures read { IsTrue result → decode_of digits.now ≡ Ok bytes.new }
    ensures found { (b : List ℕ) → decode_of digits.now ≡ Ok b → IsTrue result }
{
    hex::decode_to_slice(digits, bytes).is_ok()
}
