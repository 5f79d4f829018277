//! Shapes of funnels, and the numbers of their words.
#![tactic(auto)]

mod shape;
mod workers;

ghost use Rattle.fn_layout.specs.Laws.{NamesAreRead, NumbersAreNamed, NamesAreDistinct, MembersAreNumbered, NumbersAreMembers, MembersRise};

pub use fn_model::Kind;
pub use fn_rows::Field;
pub use shape::{Shape, ShapeFault, field_number};
pub use workers::shape_for;

/// Each word has one name and one number, and the numbers are those below the number of words.
pub fn word_laws()
    ensures names_are_read { NamesAreRead }
    ensures numbers_are_named { NumbersAreNamed }
    ensures names_are_distinct { NamesAreDistinct }
{}

/// The members of an aggregator are its passes, numbered from 0 in rising order.
pub fn member_laws()
    ensures members_are_numbered { MembersAreNumbered }
    ensures numbers_are_members { NumbersAreMembers }
    ensures members_rise { MembersRise }
{}
