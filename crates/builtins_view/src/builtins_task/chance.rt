//! Random numbers.
ghost use Rattle.std.specs.Prelude.{◌≡◌, ◌<◌, ◌+◌, ◌%◌, ℕ, pos, [], ◌∷◌, IfOk};
ghost use Rattle.rand_chacha.specs.ChaCha.{word_at, key_of};
ghost use Rattle.spec_value.specs.Datum.{integer};
ghost use Rattle.spec_moo.specs.Natives.Tasks.{random_row};
ghost use Rattle.moo_task.specs.declared.effect.NativeEffect.TheVariants.{Answers};
ghost use Rattle.builtins_view.specs.Bounds.{IsBound};
ghost use Rattle.builtins_view.specs.Done.{Does};

use moo_task::deeds::Deeds;
use moo_value::answer::Answer;
use moo_value::error::MooError;
use moo_value::value::Value;
use rand_chacha::ChaCha20Rng;
use rand_core::SeedableRng;
use rand_core::utils::NextWord;
use std::alloc::AllocError;

/// The greatest integer: the bound of `random` without one.
pub const GREATEST: i32 = 2147483647;

// A word of the step's stream, by its place.
fn random_word(key: [u8; 32], number: u32, place: u64) -> u32
    ensures { result ≡ word_at 10 (key_of key) number place }
{
    let mut words = ChaCha20Rng::from_seed(key);
    words.set_stream(u64::from(number));
    words.set_word_pos(u128::from(place));
    words.next_word()
}

/// `random`: a number from 1 to a greatest one. `E_INVARG` where that is less than 1.
pub fn random(deeds: &mut Deeds, greatest: i32) -> Result<Answer, AllocError>
    ensures { IfOk result (λ a. Does (λ s c. random_row s c (integer greatest ∷ [])) deeds.old (Answers a) deeds.new) }
{
    let Some(bound) = bound(greatest) else {
        return Ok(Err(MooError::InvalidArgument));
    };
    let Some(used) = deeds.words_used.checked_add(1) else {
        return Err(AllocError);
    };
    let word = random_word(deeds.key, deeds.number, deeds.words_used);
    let number = up_to(word, bound);
    deeds.words_used = used;
    Ok(Ok(Value::integer(number)))
}

/// `random` without a bound: a number from 1 to the greatest integer.
pub fn random_integer(deeds: &mut Deeds) -> Result<Answer, AllocError>
    ensures { IfOk result (λ a. Does (λ s c. random_row s c []) deeds.old (Answers a) deeds.new) }
{
    random(deeds, GREATEST)
}

// A greatest number that is at least 1.
fn bound(greatest: i32) -> Option<u32>
    ensures { IsBound greatest result }
{
    match u32::try_from(greatest) {
        Ok(0) => None,
        Ok(bound) => Some(bound),
        Err(_) => None,
    }
}

// A number from 1 to a greatest one, by a word.
fn up_to(word: u32, greatest: u32) -> i32
    requires lower { 0 < greatest }
    requires upper { greatest < 2147483648 }
    ensures { result ≡ pos (1 + (word % greatest)) }
{
    (word % greatest + 1) as i32
}
