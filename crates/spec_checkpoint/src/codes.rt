//! Laws of what the fields of a line are written with: what is written is read in one way, whatever stands behind it.
ghost use Rattle.spec_checkpoint.specs.Codes.{NumbersReadOnce, SignedReadOnce, TextsReadOnce, ErrorsReadOnce, ValuesReadOnce, ListsReadOnce};

/// Numbers end where no digit follows; texts, the names of errors, and lists of values end by themselves.
#[tactic(auto, using(crate::proofs::Numbers::numbers_read_once, crate::proofs::Numbers::signed_read_once, crate::proofs::Quoted::texts_read_once, crate::proofs::Errors::errors_read_once, crate::proofs::Values::values_read_once, crate::proofs::Values::lists_read_once))]
pub fn reading()
    ensures numbers { NumbersReadOnce }
    ensures signed { SignedReadOnce }
    ensures texts { TextsReadOnce }
    ensures errors { ErrorsReadOnce }
    ensures values { ValuesReadOnce }
    ensures lists { ListsReadOnce }
{}
