//! What `clone` and `==` answer.
ghost use Rattle.std.specs.Prelude.{◌≡◌, ◌↔◌, IsTrue};
ghost use Rattle.pic_planes.specs.declared.shape.Chroma.{Chroma};
ghost use Rattle.pic_planes.specs.Shape.{Layout};

use crate::shape::{Chroma, Shape};

/// The clone of a chroma or a shape is the same, and making it never fails. Two of them are equal exactly where they are the same.
pub fn clone_and_eq_are_exact()
    ensures chroma_clone { (a b : Chroma) → ⟦<Chroma as Clone>⟧.is_clone a b → b ≡ a }
    ensures chroma_succeeds { (a : Chroma) → ⟦<Chroma as Clone>⟧.is_infallible a }
    ensures chroma_eq { (a b : Chroma) → IsTrue (⟦<Chroma as PartialEq>⟧.eq a b) ↔ (a ≡ b) }
    ensures shape_clone { (a b : Layout) → ⟦<Shape as Clone>⟧.is_clone a b → b ≡ a }
    ensures shape_succeeds { (a : Layout) → ⟦<Shape as Clone>⟧.is_infallible a }
    ensures shape_eq { (a b : Layout) → IsTrue (⟦<Shape as PartialEq>⟧.eq a b) ↔ (a ≡ b) }
{}
