//! Verbs as they are told by owner, bits and names, and by specifier.
ghost use Rattle.std.specs.Prelude.{◌≡◌, not, IfOk};
ghost use Rattle.spec_world.specs.VerbNames.{names_in};
ghost use Rattle.spec_moo.specs.Natives.Verbs.{with_info as with_info_of, with_specifier as with_specifier_of, new_verb as new_verb_of, is_none_named};
ghost use Rattle.builtins_view.specs.Programs.{with_program as with_program_of};
ghost use Rattle.builtins_view.specs.Specifiers.{specifier_of};

use crate::builtins_change::bits::has_bit;
use crate::builtins_change::specifier::Specifier;
use moo_compiler::program::Program;
use moo_tree::statement::Tree;
use moo_value::text::Text;
use std::alloc::{AllocError, Global};
use view::verb::Verb;

/// A verb's owner, its bits and its names, as texts.
#[derive(Drop)]
pub struct Info {
    pub owner: i32,
    pub bits: Text,
    pub names: Text,
}

/// A verb with another owner, other bits and names.
pub fn with_info(verb: &Verb, info: &Info) -> Result<Verb, AllocError>
    ensures { IfOk result (λ v. v ≡ with_info_of info.now.owner info.now.bits info.now.names verb.now) }
{
    let bits = info.bits.as_str().as_bytes();
    Ok(Verb {
        names: info.names.clone()?,
        owner: info.owner,
        readable: has_bit(b'r', bits),
        writable: has_bit(b'w', bits),
        callable: has_bit(b'x', bits),
        debug: has_bit(b'd', bits),
        direct: verb.direct,
        preposition: verb.preposition,
        indirect: verb.indirect,
        program: verb.program.clone()?,
    })
}

/// A verb with another specifier.
pub fn with_specifier(verb: &Verb, specifier: Specifier) -> Result<Verb, AllocError>
    ensures { IfOk result (λ v. v ≡ with_specifier_of (specifier_of specifier) verb.now) }
{
    Ok(Verb {
        names: verb.names.clone()?,
        owner: verb.owner,
        readable: verb.readable,
        writable: verb.writable,
        callable: verb.callable,
        debug: verb.debug,
        direct: specifier.direct,
        preposition: specifier.preposition,
        indirect: specifier.indirect,
        program: verb.program.clone()?,
    })
}

/// A verb with another program.
pub fn with_program(verb: &Verb, program: Program) -> Result<Verb, AllocError>
    ensures { IfOk result (λ v. v ≡ with_program_of program verb.now) }
{
    Ok(Verb {
        names: verb.names.clone()?,
        owner: verb.owner,
        readable: verb.readable,
        writable: verb.writable,
        callable: verb.callable,
        debug: verb.debug,
        direct: verb.direct,
        preposition: verb.preposition,
        indirect: verb.indirect,
        program,
    })
}

/// A verb whose program does nothing yet.
pub fn new_verb(alloc: Global, info: &Info, specifier: Specifier) -> Result<Verb, AllocError>
    ensures { IfOk result (λ v. v ≡ new_verb_of (specifier_of specifier) info.now.owner info.now.bits info.now.names) }
{
    let bits = info.bits.as_str().as_bytes();
    Ok(Verb {
        names: info.names.clone()?,
        owner: info.owner,
        readable: has_bit(b'r', bits),
        writable: has_bit(b'w', bits),
        callable: has_bit(b'x', bits),
        debug: has_bit(b'd', bits),
        direct: specifier.direct,
        preposition: specifier.preposition,
        indirect: specifier.indirect,
        program: Program::compile(alloc, Tree::new(Vec::new(alloc)))?,
    })
}

/// Whether a text has a name at all.
#[tactic(auto, unfolding(spec_world::specs::VerbNames::names_in))]
pub fn has_names(names: &[u8]) -> bool
    ensures { result ≡ not (is_none_named (names_in names.now)) }
{
    for byte in names {
        if *byte != b' ' {
            return true;
        }
    }
    false
}
