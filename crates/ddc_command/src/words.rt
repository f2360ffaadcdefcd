// The words of the command line.
ghost use Rattle.std.specs.Prelude.{◌≡◌, ◌&&◌, IfSome, is_some, true};
ghost use Rattle.ddc_names.specs.Texts.{name_fault};
ghost use Rattle.ddc_model.specs.Entries.{is_time};
ghost use Rattle.ddc_command.specs.Words.{are_hours, command_of, init_where};
ghost use Rattle.ddc_command.specs.inside.Times.{AreTimes, hours};

use crate::command::{Command, Places};
use ddc_names::Namespace;
use ddc_protocol::decimal_value;

// A number of hours: 1 to 1,000,000.
fn hours(text: &[u8]) -> Option<u32>
    ensures hours { result ≡ hours text.now }
    ensures time { IfSome result (λ hours. is_time hours ≡ true) }
{
    match decimal_value(text, 10) {
        Some(value) => {
            if value >= 1 && value <= 1_000_000 {
                Some(value as u32)
            } else {
                None
            }
        }
        None => None,
    }
}

// The command of these words after `init DIR`.
fn init_command(space: &str, ttl: &str, pin: &str) -> Option<Command>
    ensures times { IfSome result AreTimes }
    ensures command { result ≡ init_where (name_fault space.now) (are_hours ttl.now && are_hours pin.now) space.now ttl.now pin.now }
{
    match Namespace::parse(space) {
        Ok(space) => match (hours(ttl.as_bytes()), hours(pin.as_bytes())) {
            (Some(ttl), Some(pin)) => Some(Command::Init { space, ttl, pin }),
            _ => None,
        },
        Err(_) => None,
    }
}

/// The command that the words spell, where they have a form.
pub(crate) fn command_of(words: &[String]) -> Option<Command>
    ensures command { result ≡ command_of words.now }
    ensures times { IfSome result AreTimes }
{
    match words {
        [word, _] => {
            if word.as_bytes() == b"replay".as_slice() {
                Some(Command::Replay)
            } else {
                None
            }
        }
        [word, _, space, ttl, pin] => {
            if word.as_bytes() == b"init".as_slice() {
                init_command(space.as_str(), ttl.as_str(), pin.as_str())
            } else {
                None
            }
        }
        _ => None,
    }
}

/// The places of what the words name: None exactly where the words have no form. It takes no memory.
pub fn places(words: &[String]) -> Option<Places>
    ensures form { is_some result ≡ is_some (command_of words.now) }
    ensures dir { IfSome result (λ places. places ≡ record { dir = 1; other = None; workers = 0 }) }
{
    match command_of(words) {
        Some(_) => Some(Places {
            dir: 1,
            other: None,
            workers: 0,
        }),
        None => None,
    }
}
