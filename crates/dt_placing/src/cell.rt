ghost use Rattle.std.specs.Prelude.{◌≡◌, ◌<◌, ◌≤◌, ◌-◌, ◌^◌, ◌==◌, ℕ, [], ◌∷◌};
ghost use Rattle.dt_pages.specs.Image.{look_up};
ghost use Rattle.dt_scratch.specs.Query.{arity_of_query};
ghost use Rattle.dt_fit.specs.Geometry.{cell_limit};
ghost use Rattle.dt_placing.specs.Placing.{cell_at, place_numbers, tag_of, answer_at};
ghost use Rattle.dt_placing.specs.Turn.{number_at, own_word};

use dt_cells::answer_by_word;
use dt_fit::Geometry;
use dt_pages::Tree;
use dt_scratch::Query;

// The cells begin here.
pub(crate) const CELLS: u32 = 1 << 24;

// The class of a query of one class.
pub(crate) fn only_class(query: &Query) -> u16
    requires { arity_of_query query.now ≤ 1 }
    ensures { query.now.classes ≡ result ∷ [] }
{
    query.classes()[0]
}

// The tag of a selector's cells.
pub(crate) fn tag(selector: u16) -> u32
    ensures { result ≡ tag_of selector }
{
    u32::from(selector) + 1
}

// The number of the cell of a class at the place of a place word.
pub(crate) fn cell_number(geometry: Geometry, word: u32, class: u16) -> u32
    requires word { word - 1 < place_numbers geometry }
    requires class { class < 2048 }
    ensures value { result ≡ number_at geometry word class }
    ensures in_limit { result < cell_limit geometry }
    ensures in_region { result < 2 ^ 24 }
{
    let place = word.saturating_sub(1);
    match geometry {
        Geometry::Colours => 2048 * place + u32::from(class),
        Geometry::Displacements => place + u32::from(class),
    }
}

// The address of the cell of a class at the place of a place word.
pub(crate) fn cell_address(geometry: Geometry, word: u32, class: u16) -> u32
    requires word { word - 1 < place_numbers geometry }
    requires class { class < 2048 }
    ensures value { result ≡ cell_at geometry (word - 1) class }
    ensures in_range { result < 2 ^ 25 }
{
    CELLS + cell_number(geometry, word, class)
}

// The word of a selector's own cell of a class, where it has this place word; 0 where it has no such cell.
pub(crate) fn read_own(
    tree: &Tree,
    geometry: Geometry,
    selector: u16,
    before: u32,
    class: u16,
) -> u64
    requires word { before - 1 < place_numbers geometry }
    requires class { class < 2048 }
    ensures { result ≡ own_word geometry (look_up tree.now) selector before class }
{
    if before == 0 {
        return 0;
    }
    let word = tree.word(cell_address(geometry, before, class));
    if word >> 32 == u64::from(tag(selector)) {
        word
    } else {
        0
    }
}
