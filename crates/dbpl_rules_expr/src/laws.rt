//! Laws of the judgement of expressions, each the contract of a function that does nothing.
ghost use Rattle.std.specs.Prelude.{◌≡◌, ℕ, List, Option};
ghost use Rattle.dbpl_judging.specs.Judgements.{each_at};
ghost use Rattle.dbpl_judging.specs.declared.setting.Setting.{Setting as AnySetting};
ghost use Rattle.dbpl_rules_expr.specs.Exact.{IsExact};
ghost use Rattle.dbpl_rules_expr.specs.Expressions.{argument_at, callee_judged, judge_aggregate, judge_element, judge_expr, judge_factor, judging, kind_judged, target_judged, variable_judged};
ghost use Rattle.dbpl_rules_expr.specs.Names.{qual_named};
ghost use Rattle.dbpl_rules_expr.specs.Productions.{aggregate_value, element_value, factor_given};
ghost use Rattle.dbpl_symbols.specs.Known.{IsKnown};
ghost use Rattle.dbpl_symbols.specs.declared.decl.Decl.{Decl as AnyDecl};
ghost use Rattle.dbpl_tree.specs.declared.aggregate.Aggregate.{Aggregate as AnyAggregate, out-Aggregate};
ghost use Rattle.dbpl_tree.specs.declared.designator.DesignatorOf.{DesignatorOf as AnyDesignator};
ghost use Rattle.dbpl_tree.specs.declared.each.Each.{Each as AnyEach};
ghost use Rattle.dbpl_tree.specs.declared.element.Element.{Element as AnyElement, out-Element};
ghost use Rattle.dbpl_tree.specs.declared.expr.ExprOf.{ExprOf as AnyExpr};
ghost use Rattle.dbpl_tree.specs.declared.factor.Factor.{Factor as AnyFactor, Factor-F, out-Factor, roll-Factor};
ghost use Rattle.dbpl_tree.specs.declared.ident.Qual.{Qual as AnyQual};
ghost use Rattle.dbpl_tree.specs.declared.range.Range.{Range as AnyRange};

/// The judgement of a factor is one level of it, over the judgements of the phrases in it, whether it is taken apart or made;
/// and so are those of an element and of an aggregate.
pub fn judged_by_levels()
    ensures factor { (f : AnyFactor) → judge_factor f ≡ factor_given judging (out-Factor f) }
    ensures factor_made { (level : Factor-F AnyElement AnyFactor AnyRange AnyAggregate AnyEach) → judge_factor (roll-Factor level) ≡ factor_given judging level }
    ensures element { (e : AnyElement) → judge_element e ≡ element_value judging (out-Element e) }
    ensures aggregate { (a : AnyAggregate) → judge_aggregate a ≡ aggregate_value judging (out-Aggregate a) }
{}

/// In a scope that is known a phrase resolves to something exactly where it breaks no rule: an expression; a designator as a
/// variable, as one that is to be changed, as the name of a type and as that of what is called; a name; and arguments.
pub fn exact_expressions()
    ensures expr { (setting : AnySetting) → IsKnown setting.scope → (e : AnyExpr AnyFactor) → IsExact (judge_expr setting e) }
    ensures variable { (setting : AnySetting) → IsKnown setting.scope → (d : AnyDesignator AnyFactor) → IsExact (variable_judged setting d) }
    ensures target { (setting : AnySetting) → IsKnown setting.scope → (d : AnyDesignator AnyFactor) → IsExact (target_judged setting d) }
    ensures kind { (setting : AnySetting) → IsKnown setting.scope → (d : AnyDesignator AnyFactor) → IsExact (kind_judged setting d) }
    ensures callee { (setting : AnySetting) → IsKnown setting.scope → (d : AnyDesignator AnyFactor) → IsExact (callee_judged setting d) }
    ensures name { (setting : AnySetting) → IsKnown setting.scope → (q : AnyQual) → IsExact (qual_named setting q) }
    ensures arguments { (setting : AnySetting) → IsKnown setting.scope → (decl : Option AnyDecl) (count : ℕ) (es : List (AnyExpr AnyFactor)) → IsExact (each_at (argument_at decl count setting) 0 es) }
{}
