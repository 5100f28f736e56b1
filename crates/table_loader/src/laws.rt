//! Laws of loading from rows.

ghost use Rattle.table_loader.specs.Answers.{RowAnswersAreHonest};
ghost use Rattle.table_loader.specs.FromRows.{EntitiesFromRowsAreHonest};
ghost use Rattle.table_loader.specs.Laws.{KnownStoresAreOrdered};

/// The attributes with which a trie goes on, whole, and all tags where it goes on with any tag, are
/// an honest answer.
pub fn row_answers_are_honest()
    ensures { RowAnswersAreHonest }
{}

/// An entity that is put together of what rows give for it, row by row, is an honest answer.
pub fn entities_from_rows_are_honest()
    ensures { EntitiesFromRowsAreHonest }
{}

/// A store that a loader over rows says is in order: ids ascend, and keys and ancestors in each entity.
pub fn known_stores_are_ordered()
    ensures { KnownStoresAreOrdered }
{}
