ghost use Rattle.std.specs.Prelude.{◌≡◌, ◌↔◌, ℕ, ◌+◌, ◌++◌, ◌∷◌, [], ◌<◌, ◌≤◌, ◌^◌, true, List, Some, None, All, Contains, length, map};
ghost use Rattle.std.specs.declared.option.Option.{Option};
ghost use Rattle.iam_text.specs.Put.{placed, IsInOrder};
ghost use Rattle.iam_names.specs.declared.node.NodeId.{NodeId};
ghost use Rattle.iam_names.specs.declared.node.NodeKind.{NodeKind};
ghost use Rattle.iam_names.specs.declared.node.NodeName.{NodeName};
ghost use Rattle.iam_names.specs.declared.node.NodeName.TheVariants.{Organization};
ghost use Rattle.iam_types.specs.declared.command.Entry.{Entry};
ghost use Rattle.iam_types.specs.declared.fact.Fact.{Fact};
ghost use Rattle.iam_types.specs.declared.fact.Fact.TheVariants as fact;
ghost use Rattle.iam_types.specs.declared.fact.FactChange.TheVariants.{Put};
ghost use Rattle.iam_types.specs.declared.node.Node.{Node};
ghost use Rattle.iam_types.specs.declared.node.Org.{Org};
ghost use Rattle.iam_types.specs.declared.tables.Opening.{Opening};
ghost use Rattle.iam_types.specs.declared.tables.Tables.{Tables};
ghost use Rattle.iam_model.specs.Broken.{GiveTables, IsFirstBroken, IsOnlyOrg};
ghost use Rattle.iam_model.specs.Commands.{IsEntry, after, changes_of, fits};
ghost use Rattle.iam_model.specs.Consistent.{Consistent, NothingElse};
ghost use Rattle.iam_model.specs.Creation.{added, new_folder, new_node};
ghost use Rattle.iam_model.specs.Facts.{AreApart, fact_order, facts_of, tables_with, with_changes};
ghost use Rattle.iam_model.specs.Formed.{IsChange, IsFact, IsNodeFact, IsPolicyFact};
ghost use Rattle.iam_model.specs.Hierarchy.{are_namesakes, count_folders, is_alone, is_led_up};
ghost use Rattle.iam_model.specs.Nodes.{children_of, depth_below, exists, longest_path, organization_of, path, resolve, row_named};
ghost use Rattle.iam_model.specs.Opening.{IsOpening, opening_tables};
ghost use Rattle.iam_model.specs.Path.{AreChildren, IsPath};
ghost use Rattle.iam_model.specs.Refusals.{Asked, Rules, first_refusal, nothing_asked};

/// The opening's tables keep all rules.
pub fn openings_are_consistent()
    ensures { (opening : Opening) → IsOpening opening → Consistent (opening_tables opening) }
{}

/// The organisation is found by its name.
pub fn organization_is_named()
    ensures { (tables : Tables) → resolve tables (Organization tables.org.number) ≡ Some (organization_of tables) }
{}

/// A node that is found by a name exists.
pub fn named_nodes_exist()
    ensures { (tables : Tables) (name : NodeName) (node : NodeId) → resolve tables name ≡ Some node → exists tables node ≡ true }
{}

/// A row that is found by a name is that of a node that exists.
pub fn named_rows_exist()
    ensures { (tables : Tables) (name : NodeName) (node : Node) → row_named tables name ≡ Some node → exists tables node.id ≡ true }
{}

/// A node that exists has a path, of at most twelve nodes.
pub fn paths_stand()
    ensures path { (tables : Tables) (node : NodeId) → Consistent tables → exists tables node ≡ true → IsPath tables node (path tables node) }
    ensures few { (tables : Tables) (node : NodeId) → length (path tables node) ≤ longest_path }
{}

/// It has no other.
pub fn paths_are_one()
    ensures { (tables : Tables) (node : NodeId) (a b : List NodeId) → Consistent tables → IsPath tables node a → IsPath tables node b → a ≡ b }
{}

/// Parents that lead to the root do so in no more steps than there are rows.
pub fn ways_are_short()
    ensures { (root : NodeId) (nodes : List Node) (node : NodeId) (steps : ℕ) → is_led_up steps root nodes node ≡ true → is_led_up (length nodes) root nodes node ≡ true }
{}

/// A list of children has exactly the ACTIVE ones, in the order of their numbers.
pub fn children_are_listed()
    ensures { (tables : Tables) (kind : NodeKind) (parent : NodeId) → Consistent tables → AreChildren tables kind parent (children_of tables.nodes kind parent) }
{}

/// The nodes of consistent tables are well formed.
pub fn nodes_are_formed()
    ensures { (tables : Tables) → Consistent tables → All IsNodeFact tables.nodes }
{}

/// The policies of consistent tables are well formed.
pub fn policies_are_formed()
    ensures { (tables : Tables) → Consistent tables → All IsPolicyFact tables.allows }
{}

/// No policy has more bindings than a place can count.
pub fn policies_are_countable()
    ensures { (tables : Tables) → Consistent tables → All (λ policy. length policy.bindings < 2 ^ 32) tables.allows }
{}

/// One more change can be counted.
pub fn changes_are_countable()
    ensures { (tables : Tables) → Consistent tables → tables.org.changes + 1 < 2 ^ 64 }
{}

/// A rule that isn't tried refuses nothing: what passes all groups passes those of the tables alone.
pub fn accepted_rules_fit()
    ensures { (rules : Rules) (asked : Asked) → first_refusal rules asked ≡ None → first_refusal rules nothing_asked ≡ None }
{}

/// A change that fits keeps the tables consistent.
pub fn changes_keep_consistent()
    ensures { (tables : Tables) (entry : Entry) → Consistent tables → IsEntry entry → fits tables entry ≡ None → Consistent (after tables entry) }
{}

/// A change that fits is one more.
pub fn changes_are_counted()
    ensures { (tables : Tables) (entry : Entry) → Consistent tables → IsEntry entry → fits tables entry ≡ None → (after tables entry).org.changes ≡ tables.org.changes + 1 }
{}

/// The changes of facts lead from the facts before a change that fits to those after it.
pub fn changes_lead()
    ensures { (tables : Tables) (entry : Entry) → Consistent tables → IsEntry entry → fits tables entry ≡ None → with_changes (facts_of tables) (changes_of tables entry) ≡ facts_of (after tables entry) }
{}

/// A new folder or project is one more row. The folders with its parent, its depth and its namesakes are those before it, and it.
pub fn new_nodes_are_counted()
    ensures nodes { (tables : Tables) (kind : NodeKind) (parent : NodeId) (display : List ℕ) (project : Option (List ℕ)) → Consistent tables → length (added (new_node tables kind parent display project) tables.nodes) ≡ length tables.nodes + 1 }
    ensures folders { (tables : Tables) (parent : NodeId) (display : List ℕ) → Consistent tables → count_folders (added (new_folder tables parent display) tables.nodes) parent ≡ count_folders tables.nodes parent + 1 }
    ensures depth { (tables : Tables) (parent : NodeId) (display : List ℕ) → Consistent tables → exists tables parent ≡ true → depth_below (added (new_folder tables parent display) tables.nodes) parent ≡ depth_below tables.nodes parent }
    ensures names { (tables : Tables) (parent : NodeId) (display : List ℕ) → Consistent tables → is_alone are_namesakes (added (new_folder tables parent display) tables.nodes) (new_folder tables parent display) ≡ is_alone are_namesakes tables.nodes (new_folder tables parent display) }
{}

/// The facts that a change that fits puts and cuts are well formed.
pub fn changes_are_formed()
    ensures { (tables : Tables) (entry : Entry) → Consistent tables → IsEntry entry → fits tables entry ≡ None → All IsChange (changes_of tables entry) }
{}

/// Policies, nodes and the organisation are all that is kept yet.
pub fn nothing_else_is_kept()
    ensures { (tables : Tables) → Consistent tables → NothingElse tables }
{}

/// Well formed facts give policies, nodes and the organisation alone.
pub fn nothing_else_is_given()
    ensures { (facts : List Fact) (org : Org) → All IsFact facts → NothingElse (tables_with org facts) }
{}

/// Policies, nodes and the organisation are all facts yet.
pub fn facts_are_few()
    ensures { (tables : Tables) → Consistent tables → facts_of tables ≡ map (λ policy. fact.Allow policy) tables.allows ++ (map (λ node. fact.Node node) tables.nodes ++ fact.Org tables.org ∷ []) }
{}

/// Tables are told by their facts.
pub fn facts_tell_tables()
    ensures { (a b : Tables) → facts_of a ≡ facts_of b → a ≡ b }
{}

/// Facts in order are in their places, at most one in each.
pub fn ordered_facts_are_placed()
    ensures { (facts : List Fact) → IsInOrder fact_order facts → (placed fact_order facts ≡ facts) × AreApart facts }
{}

/// Facts in order are those that are put one after another.
pub fn facts_are_put()
    ensures { (facts : List Fact) → IsInOrder fact_order facts → with_changes [] (map Put facts) ≡ facts }
{}

/// Well formed facts that give tables give consistent ones, whose facts are those in their places.
pub fn given_tables_are_consistent()
    ensures { (facts : List Fact) (tables : Tables) → All IsFact facts → GiveTables facts tables → Consistent tables × (facts_of tables ≡ placed fact_order facts) }
{}

/// The facts of consistent tables give them back, in any order.
pub fn consistent_tables_are_given()
    ensures { (facts : List Fact) (tables : Tables) → Consistent tables → AreApart facts → ((fact : Fact) → Contains facts fact ↔ Contains (facts_of tables) fact) → GiveTables facts tables }
{}

/// Facts that break a rule give no tables.
pub fn broken_facts_give_none()
    ensures { (facts : List Fact) (tables : Tables) (rule : ℕ) → GiveTables facts tables → IsFirstBroken facts rule → ⊥ }
{}

/// The facts of the tables with an organisation and facts are the facts in their places.
pub fn tables_have_placed_facts()
    ensures { (facts : List Fact) (org : Org) → IsOnlyOrg facts org → facts_of (tables_with org facts) ≡ placed fact_order facts }
{}

/// Facts are apart exactly where each has a place of its own.
pub fn apart_facts_are_counted()
    ensures { (facts : List Fact) → (length (placed fact_order facts) ≡ length facts) ↔ AreApart facts }
{}
