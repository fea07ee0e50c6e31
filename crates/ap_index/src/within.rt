//! Whether rows and choices lead to places of the code alone.

ghost use Rattle.std.specs.Prelude.{◌≡◌};
ghost use Rattle.std.specs.List.{list_all};
ghost use Rattle.ap_index.specs.Within.{is_within, is_slot_within, is_row_within, is_link_within, is_next_within, is_choice_within};

use crate::choice::{Choice, Next};
use crate::row::{Link, NONE, Row};

fn is_slot_within(slot: u32, places: usize) -> bool
    ensures { result ≡ is_slot_within places slot }
{
    slot == NONE || (slot as usize) < places
}

fn are_slots_within(slots: &[u32], places: usize) -> bool
    ensures { result ≡ list_all (is_slot_within places) slots.now }
{
    slots.iter().all(|slot| is_slot_within(*slot, places))
}

impl Row {
    /// Whether it leads to places before one alone.
    fn is_within(&self, places: usize) -> bool
        ensures { result ≡ is_row_within places self.now }
    {
        are_slots_within(self.slots.as_slice(), places)
    }
}

/// Whether rows lead to places before one alone.
pub(crate) fn are_rows_within(rows: &[Row], places: usize) -> bool
    ensures { result ≡ list_all (is_row_within places) rows.now }
{
    rows.iter().all(|row| row.is_within(places))
}

impl Link {
    /// Whether it leads to a place before one, if to any.
    fn is_within(&self, places: usize) -> bool
        ensures { result ≡ is_link_within places self.now }
    {
        match self.next {
            Some(place) => (place as usize) < places,
            None => true,
        }
    }
}

/// Whether links lead to places before one alone.
pub(crate) fn are_links_within(links: &[Link], places: usize) -> bool
    ensures { result ≡ list_all (is_link_within places) links.now }
{
    links.iter().all(|link| link.is_within(places))
}

fn is_behind_within(behind: Option<usize>, places: usize) -> bool
    ensures { result ≡ is_within places behind }
{
    match behind {
        Some(place) => place < places,
        None => true,
    }
}

fn is_next_within(next: &Next, places: usize) -> bool
    ensures { result ≡ is_next_within places next.now }
{
    match next {
        Next::Any => true,
        Next::Row => true,
        Next::Linked(link) => link.is_within(places),
    }
}

impl Choice {
    /// Whether the choices behind it stand before a place, and its link leads to one before that.
    fn is_within(&self, places: usize) -> bool
        ensures { result ≡ is_choice_within places self.now }
    {
        is_behind_within(self.named.behind, places) && is_next_within(&self.next, places)
    }
}

/// Whether choices lead to places before one alone.
pub(crate) fn are_choices_within(choices: &[Choice], places: usize) -> bool
    ensures { result ≡ list_all (is_choice_within places) choices.now }
{
    choices.iter().all(|choice| choice.is_within(places))
}
