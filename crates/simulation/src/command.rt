//! What a line asks for.
//!
//! A line is a word, and behind it up to two numbers, each after one space. A number is decimal,
//! without a sign or a leading zero.
ghost use Rattle.std.specs.Prelude.{◌≡◌, ◌<◌, ◌^◌, ◌++◌, ◌∷◌, ◌↔◌, ℕ, List, [], IfSome, IsSomeAnd, IsTrue, Some, true};
ghost use Rattle.std.specs.Fmt.{decimal};
ghost use Rattle.executor_core.specs.declared.interleave.request.Step.{Step};
ghost use Rattle.simulation.specs.Grammar.{numbers_of, line_of, local_word, local_line, is_of_ticker, spaced, listed, AreInRange, IsWord, IsWritten, IsPlain};
ghost use Rattle.simulation.specs.declared.command.Arguments.{Arguments};
ghost use Rattle.simulation.specs.declared.command.Arguments.TheVariants.{Two};
ghost use Rattle.simulation.specs.declared.command.Command.TheVariants.{Step as AsStep};

use executor_core::interleave::Step;

/// What a line asks for: a step of the world, or its state.
#[derive(Drop)]
pub enum Command {
    Step(Step<(), u64>),
    Show,
}

// The numbers behind a word.
#[derive(Clone, Copy)]
enum Arguments {
    None,
    One(u64),
    Two(u64, u64),
}

/// The command that is written so. `None` if no command is.
pub fn command_of(line: &[u8]) -> Option<Command>
    ensures found { IfSome result (λ command. line.now ≡ line_of command) }
    ensures read { (command : Command) → AreInRange (numbers_of command)
        → line.now ≡ line_of command
        → result ≡ Some command }
{
    let (word, arguments) = split_line(line)?;
    command_from(word, arguments)
}

/// The number of places for which a line of limits asks. `None` if the line is no such one.
pub fn local_of(line: &[u8]) -> Option<u64>
    ensures found { IfSome result (λ places. line.now ≡ local_line places) }
    ensures read { (places : ℕ) → places < 2 ^ 64 → line.now ≡ local_line places
        → result ≡ Some places }
{
    let (word, arguments) = split_line(line)?;
    places_of(word, arguments)
}

// The number behind the word of a line of limits.
fn places_of(word: &str, arguments: Arguments) -> Option<u64>
    ensures found { IfSome result
        (λ places. (word.now ≡ local_word) × (listed arguments ≡ places ∷ [])) }
    ensures read { (places : ℕ) → word.now ≡ local_word → listed arguments ≡ places ∷ []
        → result ≡ Some places }
{
    match arguments {
        Arguments::One(places) => match word {
            "local" => Some(places),
            _ => None,
        },
        Arguments::None | Arguments::Two(_, _) => None,
    }
}

// The command of a word and its arguments.
fn command_from(word: &str, arguments: Arguments) -> Option<Command>
    ensures found { IfSome result (IsWritten word.now (listed arguments)) }
    ensures read { (command : Command) → IsWritten word.now (listed arguments) command
        → result ≡ Some command }
{
    let step = match arguments {
        Arguments::None => return command_alone(word),
        Arguments::One(n) => step_with_one(word, n)?,
        Arguments::Two(n, m) => step_with_two(word, n, m)?,
    };
    Some(Command::Step(step))
}

// The command of a word with no number.
fn command_alone(word: &str) -> Option<Command>
    ensures found { IfSome result (IsWritten word.now []) }
    ensures read { (command : Command) → IsWritten word.now [] command → result ≡ Some command }
{
    Some(Command::Step(match word {
        "show" => return Some(Command::Show),
        "spawn" => Step::Spawn(()),
        "trytick" => Step::TryTick,
        "tryany" => Step::TryAny,
        "exchange" => Step::Exchange,
        "notify" => Step::Notify,
        "tick" => Step::Tick,
        "run" => Step::Run,
        "close" => Step::Close,
        "drain" => Step::Drain,
        "leak" => Step::Leak,
        _ => return None,
    }))
}

// The step of a word with one number, which is of a task or of a ticker.
fn step_with_one(word: &str, n: u64) -> Option<Step<(), u64>>
    ensures found { IfSome result (λ step. IsWritten word.now (n ∷ []) (AsStep step)) }
    ensures read { (step : Step Unit ℕ) → IsWritten word.now (n ∷ []) (AsStep step)
        → result ≡ Some step }
{
    Some(match word {
        "wake" => Step::Wake(n),
        "pend" => Step::Pend(n),
        "pollhandle" => Step::PollHandle(n),
        "cancel" => Step::Cancel(n),
        "detach" => Step::Detach(n),
        "drophandle" => Step::DropHandle(n),
        "dropped" => Step::Dropped(n),
        _ => return step_of_ticker(word, n as usize),
    })
}

// The step of a word with the number of a ticker.
fn step_of_ticker(word: &str, k: usize) -> Option<Step<(), u64>>
    ensures found { IfSome result (λ step. IsWritten word.now (k ∷ []) (AsStep step)) }
    ensures read { (step : Step Unit ℕ) → is_of_ticker step ≡ true
        → IsWritten word.now (k ∷ []) (AsStep step)
        → result ≡ Some step }
{
    Some(match word {
        "register" => Step::Register(k),
        "poll" => Step::Poll(k),
        "sleep" => Step::Sleep(k),
        "yield" => Step::Yield(k),
        "remove" => Step::Remove(k),
        "store" => Step::Store(k),
        "fair" => Step::Fair(k),
        "unregister" => Step::Unregister(k),
        "drop" => Step::Drop(k),
        _ => return None,
    })
}

// The step of a word with two numbers.
fn step_with_two(word: &str, n: u64, m: u64) -> Option<Step<(), u64>>
    ensures found { IfSome result (λ step. IsWritten word.now (n ∷ m ∷ []) (AsStep step)) }
    ensures read { (step : Step Unit ℕ) → IsWritten word.now (n ∷ m ∷ []) (AsStep step)
        → result ≡ Some step }
{
    Some(match word {
        "ready" => Step::Ready(n, m),
        "search" => Step::Search(n as usize, m),
        _ => return None,
    })
}

// The word of a command, and the numbers behind it, in this line.
fn split_line(line: &[u8]) -> Option<(&str, Arguments)>
    ensures found { IfSome result (λ parts. line.now ≡ parts.0.now ++ spaced (listed parts.1)) }
    ensures read { (word : List ℕ) (arguments : Arguments) → IsWord word
        → AreInRange (listed arguments)
        → line.now ≡ word ++ spaced (listed arguments)
        → IsSomeAnd result (λ parts. (parts.0.now ≡ word) × (parts.1 ≡ arguments)) }
{
    let text = str::from_utf8(line).ok()?;
    match text.split_once(' ') {
        None => Some((text, Arguments::None)),
        Some((word, numbers)) => Some((word, arguments_of(numbers)?)),
    }
}

// The numbers of a command, of which this is the text behind the first space.
fn arguments_of(text: &str) -> Option<Arguments>
    ensures found { IfSome result (λ arguments. 32 ∷ text.now ≡ spaced (listed arguments)) }
    ensures read { (arguments : Arguments) → AreInRange (listed arguments)
        → 32 ∷ text.now ≡ spaced (listed arguments) → result ≡ Some arguments }
{
    match text.split_once(' ') {
        None => Some(Arguments::One(number_of(text)?)),
        Some((first, second)) => two_arguments(first, second),
    }
}

// The two numbers of a command, of which these are the texts.
fn two_arguments(first: &str, second: &str) -> Option<Arguments>
    ensures found { IfSome result (λ arguments.
        32 ∷ first.now ++ 32 ∷ second.now ≡ spaced (listed arguments)) }
    ensures read { (n m : ℕ) → n < 2 ^ 64 → m < 2 ^ 64 → first.now ≡ decimal n
        → second.now ≡ decimal m
        → result ≡ Some (Two n m) }
{
    Some(Arguments::Two(number_of(first)?, number_of(second)?))
}

// The number in a command of which this is the decimal form.
fn number_of(text: &str) -> Option<u64>
    ensures found { IfSome result (λ n. text.now ≡ decimal n) }
    ensures read { (n : ℕ) → n < 2 ^ 64 → text.now ≡ decimal n → result ≡ Some n }
{
    if is_plain(text.as_bytes()) {
        text.parse().ok()
    } else {
        None
    }
}

// Whether a number in a command has no plus sign and no leading zero, both of which `parse` takes.
fn is_plain(digits: &[u8]) -> bool
    ensures { IsTrue result ↔ IsPlain digits.now }
{
    match digits {
        [b'+', ..] | [b'0', _, ..] => false,
        _ => true,
    }
}
