//! Flags, and the letters of bits that are set.
ghost use Rattle.std.specs.Prelude.{◌≡◌, ◌==◌, Bool, true, false, Some, None, Option, if◌then◌else◌, not, List, [], ◌∷◌, ◌++◌, IsTrue, IfSome, MatchOption, is_some, codes};
ghost use Rattle.spec_value.specs.Datum.{Text};
ghost use Rattle.spec_world.specs.World.{Object, Slot, Verb};
ghost use Rattle.spec_world.specs.Checkpoint as text_of;
ghost use Rattle.spec_faults.specs.Plain.{is_flag, are_flags, are_bits};
ghost use Rattle.line_fields.specs.Bits.{flags_of, bits_of_slot, bits_of_verb, begins_otherwise};

/// The bits of a slot, `rwc`.
#[derive(Clone, Copy)]
pub struct SlotBits {
    pub readable: bool,
    pub writable: bool,
    pub changeable: bool,
}

/// The bits of a verb, `rwxd`.
#[derive(Clone, Copy)]
pub struct VerbBits {
    pub readable: bool,
    pub writable: bool,
    pub callable: bool,
    pub debug: bool,
}

/// The flags of an object: three of its own, and its bits `rwf`.
#[derive(Clone, Copy)]
pub struct ObjectFlags {
    pub is_player: bool,
    pub is_programmer: bool,
    pub is_wizard: bool,
    pub readable: bool,
    pub writable: bool,
    pub fertile: bool,
}

/// A flag, 0 or 1.
pub fn flag(text: &[u8]) -> Option<bool>
    ensures reads { (b : Bool) → text.now ≡ text_of.flag b → result ≡ Some b }
    ensures fault { is_some result ≡ is_flag text.now }
{
    match text {
        [digit] => digit_flag(*digit),
        _ => None,
    }
}

fn digit_flag(digit: u8) -> Option<bool>
    ensures reads { (b : Bool) → digit ∷ [] ≡ text_of.flag b → result ≡ Some b }
    ensures fault { is_some result ≡ is_flag (digit ∷ []) }
{
    match digit {
        b'0' => Some(false),
        b'1' => Some(true),
        _ => None,
    }
}

/// The flags of an object, six digits.
pub fn object_flags(text: &[u8]) -> Option<ObjectFlags>
    ensures reads { (x : Object) → text.now ≡ text_of.flags_text x → result ≡ Some (flags_of x) }
    ensures fault { is_some result ≡ are_flags 6 text.now }
{
    let [player, programmer, wizard, r, w, f] = text else {
        return None;
    };
    Some(ObjectFlags {
        is_player: digit_flag(*player)?,
        is_programmer: digit_flag(*programmer)?,
        is_wizard: digit_flag(*wizard)?,
        readable: digit_flag(*r)?,
        writable: digit_flag(*w)?,
        fertile: digit_flag(*f)?,
    })
}

/// The bits of a slot: the letters of those that are set, or a dash.
pub fn slot_bits(text: &[u8]) -> Option<SlotBits>
    ensures reads { (s : Slot) → text.now ≡ text_of.slot_bits s → result ≡ Some (bits_of_slot s) }
    ensures fault { is_some result ≡ are_bits (codes "rwc") text.now }
{
    let letters = letters_of(text)?;
    let (readable, letters) = without(letters, b'r');
    let (writable, letters) = without(letters, b'w');
    let (changeable, letters) = without(letters, b'c');
    if !letters.is_empty() {
        return None;
    }
    Some(SlotBits {
        readable,
        writable,
        changeable,
    })
}

/// The bits of a verb: the letters of those that are set, or a dash.
pub fn verb_bits(text: &[u8]) -> Option<VerbBits>
    ensures reads { (v : Verb) → text.now ≡ text_of.verb_bits v → result ≡ Some (bits_of_verb v) }
    ensures fault { is_some result ≡ are_bits (codes "rwxd") text.now }
{
    let letters = letters_of(text)?;
    let (readable, letters) = without(letters, b'r');
    let (writable, letters) = without(letters, b'w');
    let (callable, letters) = without(letters, b'x');
    let (debug, letters) = without(letters, b'd');
    if !letters.is_empty() {
        return None;
    }
    Some(VerbBits {
        readable,
        writable,
        callable,
        debug,
    })
}

// The letters of the bits that are set: none for a dash.
fn letters_of(text: &[u8]) -> Option<&[u8]>
    ensures reads { (t : Text) → text.now ≡ text_of.or_dash t → (t ≡ 45 ∷ [] → ⊥) → MatchOption result ⊥ (λ l. l.now ≡ t) }
    ensures tells { IfSome result (λ l. text.now ≡ text_of.or_dash l.now) }
{
    match text {
        [] => None,
        [b'-'] => Some(&[]),
        _ => Some(text),
    }
}

// Whether a letter stands first, and what stands behind it.
fn without(letters: &[u8], letter: u8) -> (bool, &[u8])
    ensures reads { (b : Bool) (t : Text) → IsTrue (begins_otherwise letter t) → letters.now ≡ text_of.letter_if (letter ∷ []) b ++ t → (result.0 ≡ b) × (result.1.now ≡ t) }
    ensures tells { letters.now ≡ text_of.letter_if (letter ∷ []) result.0 ++ result.1.now }
{
    match letters {
        [first, rest @ ..] if *first == letter => (true, rest),
        _ => (false, letters),
    }
}
