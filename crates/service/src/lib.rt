#![tactic(auto)]

ghost use Rattle.std.specs.Prelude.{◌≡◌, ℕ, chars};
ghost use Rattle.std.specs.Duration.{as_nanos};
ghost use Rattle.duration_str_base.specs.Options.{off};
ghost use Rattle.duration_str_reading.specs.Reading.{IsRead, IsRefused};
ghost use Rattle.duration_str_base.specs.Rules.{rules_of};
ghost use Rattle.duration_str_base.specs.declared.cause.Cause.{Cause as AnyCause};

use duration_str::laws::one_sentence;
use duration_str::{Options, parse_with};
use std::time::Duration;

/// The timeout in a text, or a minute if it is refused.
pub fn timeout(text: &str) -> Duration
    ensures read { (nanos : ℕ) → IsRead (rules_of off) (chars text.now) nanos
        → as_nanos result ≡ nanos }
    ensures refused { (cause : AnyCause) → IsRefused (rules_of off) (chars text.now) cause
        → as_nanos result ≡ 60_000_000_000 }
{
    one_sentence();
    match parse_with(text, Options::off()) {
        Ok(length) => length,
        Err(_) => Duration::from_secs(60),
    }
}

pub mod call;
pub mod configuration;
