//! What the rules say of a configuration. Each function states a law, and does nothing.

ghost use Rattle.tt_rules.specs.Laws.{BodiesAreSound, DeclarationsAreSound, TablesAreSound};

/// Where no line breaks rules 4, 6, 7 and 8, the round and the names are those of a configuration.
pub fn declarations_are_sound()
    ensures { DeclarationsAreSound }
{}

/// Where no line breaks rules 19 to 24, and each entry names what is declared, the table of each
/// mode is one of a configuration.
pub fn tables_are_sound()
    ensures { TablesAreSound }
{}

/// Where no line breaks rules 2, 9 and 15, the numbers of each body are in range, and its owner
/// may have its statements.
pub fn bodies_are_sound()
    ensures { BodiesAreSound }
{}
