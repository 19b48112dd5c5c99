//! The law of the record, about its definitions alone, and what `clone` and `==` answer.
ghost use Rattle.std.specs.Prelude.{◌≡◌, ◌↔◌, IsTrue, Ok};
ghost use Rattle.ffv1_record.specs.declared.fault.RecordFault.{RecordFault};
ghost use Rattle.ffv1_record.specs.declared.record.Coder.{Coder};
ghost use Rattle.ffv1_record.specs.Reading.{parameters};
ghost use Rattle.ffv1_record.specs.Parameters.{Parameters, IsRecord};
ghost use Rattle.ffv1_record.specs.Spelling.{record_bytes};

use crate::fault::RecordFault;
use crate::record::Coder;
use ffv1_range::{Transition, codes_in_turn, reads_closed_mode, reads_symbols};
use tl_base::{numbers_read_back, parity_is_remainder};

/// What is written of a record is read again as the record.
pub fn record_reads_back()
    ensures { (p : Parameters) → IsRecord p → parameters (record_bytes p) ≡ Ok p }
{
    codes_in_turn();
    reads_symbols();
    reads_closed_mode();
    numbers_read_back();
    parity_is_remainder();
    let _default = Transition::default_table();
}

/// The clone of a coder or a fault is the same, and making it never fails. Two of them are equal exactly where they are the same.
pub fn clone_and_eq_are_exact()
    ensures coder_clone { (a b : Coder) → ⟦<Coder as Clone>⟧.is_clone a b → b ≡ a }
    ensures coder_succeeds { (a : Coder) → ⟦<Coder as Clone>⟧.is_infallible a }
    ensures coder_eq { (a b : Coder) → IsTrue (⟦<Coder as PartialEq>⟧.eq a b) ↔ (a ≡ b) }
    ensures fault_clone { (a b : RecordFault) → ⟦<RecordFault as Clone>⟧.is_clone a b → b ≡ a }
    ensures fault_succeeds { (a : RecordFault) → ⟦<RecordFault as Clone>⟧.is_infallible a }
    ensures fault_eq { (a b : RecordFault) → IsTrue (⟦<RecordFault as PartialEq>⟧.eq a b) ↔ (a ≡ b) }
{}
