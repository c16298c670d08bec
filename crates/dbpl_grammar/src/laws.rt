//! Laws of the grammar. The functions do nothing: their contracts are the laws.
ghost use Rattle.dbpl_grammar.specs.Laws.{BegunPhrase, BegunUnits, NamesPhraseToken, NamesToken, OneTree, OneUnit, PhraseIsRead, ReadsPhrase, ReadsUnits, RefusesPhrase, RefusesUnits, SpelledUnits};
ghost use Rattle.dbpl_grammar.specs.Expressions.{aggregate, at_depth, designator};
ghost use Rattle.dbpl_tree.specs.Depths.{aggregate_depth, designator_depth, expr_depth, factor_depth, range_depth};
ghost use Rattle.dbpl_tree.specs.Declarations.{common_marks, decl_marks, heading_marks, item_marks, params_marks, plain_marks};
ghost use Rattle.dbpl_tree.specs.Expressions.{designator_marks, expr_marks};
ghost use Rattle.dbpl_tree.specs.Factors.{aggregate_marks, element_marks, factor_marks, range_marks};
ghost use Rattle.dbpl_tree.specs.Statements.{statement_marks, statements_marks};
ghost use Rattle.dbpl_tree.specs.TypeTrees.{type_marks};
ghost use Rattle.dbpl_tree.specs.Units.{import_marks};

/// One list of tokens spells one tree, of any depth: whole texts, and each kind of phrase, whatever stands behind it.
pub fn one_tree()
    ensures units { OneUnit }
    ensures imports { OneTree import_marks }
    ensures declarations { OneTree decl_marks }
    ensures common { OneTree common_marks }
    ensures plain { OneTree plain_marks }
    ensures items { OneTree item_marks }
    ensures headings { OneTree heading_marks }
    ensures params { OneTree params_marks }
    ensures types { OneTree type_marks }
    ensures statement_lists { OneTree (statements_marks statement_marks) }
    ensures statements { OneTree statement_marks }
    ensures expressions { OneTree (expr_marks factor_marks) }
    ensures factors { OneTree factor_marks }
    ensures designators { OneTree (designator_marks factor_marks) }
    ensures aggregates { OneTree aggregate_marks }
    ensures elements { OneTree element_marks }
    ensures ranges { OneTree range_marks }
{}

/// What is read of a whole text is the unit that its tokens spell, if there is one that isn't too deep, and else a token
/// such that none begins with the tokens up to and with it.
pub fn reads_units()
    ensures complete { ReadsUnits }
    ensures sound { SpelledUnits }
    ensures refused { RefusesUnits }
    ensures begun { BegunUnits }
    ensures named { NamesToken }
{}

/// What is read of expressions, where so many phrases may stand inside one another, is the phrase at the front of the
/// tokens, if there is one, and else a token such that none begins with the tokens up to and with it.
pub fn reads_expressions()
    ensures found { ReadsPhrase (expr_marks factor_marks) (expr_depth factor_depth) (λ limit. (at_depth limit).expr) }
    ensures only { PhraseIsRead (expr_marks factor_marks) (expr_depth factor_depth) (λ limit. (at_depth limit).expr) }
    ensures refused { RefusesPhrase (expr_marks factor_marks) (expr_depth factor_depth) (λ limit. (at_depth limit).expr) }
    ensures begun { BegunPhrase (expr_marks factor_marks) (λ limit. (at_depth limit).expr) }
    ensures named { NamesPhraseToken (λ limit. (at_depth limit).expr) }
{}

/// What is read of designators, where so many phrases may stand inside one another, is the phrase at the front of the
/// tokens, if there is one, and else a token such that none begins with the tokens up to and with it.
pub fn reads_designators()
    ensures found { ReadsPhrase (designator_marks factor_marks) (designator_depth factor_depth) (λ limit. designator (at_depth limit).expr) }
    ensures only { PhraseIsRead (designator_marks factor_marks) (designator_depth factor_depth) (λ limit. designator (at_depth limit).expr) }
    ensures refused { RefusesPhrase (designator_marks factor_marks) (designator_depth factor_depth) (λ limit. designator (at_depth limit).expr) }
    ensures begun { BegunPhrase (designator_marks factor_marks) (λ limit. designator (at_depth limit).expr) }
    ensures named { NamesPhraseToken (λ limit. designator (at_depth limit).expr) }
{}

/// What is read of ranges, where so many phrases may stand inside one another, is the phrase at the front of the
/// tokens, if there is one, and else a token such that none begins with the tokens up to and with it.
pub fn reads_ranges()
    ensures found { ReadsPhrase range_marks range_depth (λ limit. (at_depth limit).range) }
    ensures only { PhraseIsRead range_marks range_depth (λ limit. (at_depth limit).range) }
    ensures refused { RefusesPhrase range_marks range_depth (λ limit. (at_depth limit).range) }
    ensures begun { BegunPhrase range_marks (λ limit. (at_depth limit).range) }
    ensures named { NamesPhraseToken (λ limit. (at_depth limit).range) }
{}

/// What is read of aggregates, where so many phrases may stand inside one another, is the phrase at the front of the
/// tokens, if there is one, and else a token such that none begins with the tokens up to and with it.
pub fn reads_aggregates()
    ensures found { ReadsPhrase aggregate_marks aggregate_depth (λ limit. aggregate (at_depth limit)) }
    ensures only { PhraseIsRead aggregate_marks aggregate_depth (λ limit. aggregate (at_depth limit)) }
    ensures refused { RefusesPhrase aggregate_marks aggregate_depth (λ limit. aggregate (at_depth limit)) }
    ensures begun { BegunPhrase aggregate_marks (λ limit. aggregate (at_depth limit)) }
    ensures named { NamesPhraseToken (λ limit. aggregate (at_depth limit)) }
{}
