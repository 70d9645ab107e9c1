// What holds of all texts. The body is empty: the law is a contract.

ghost use Rattle.std.specs.Prelude.{◌≡◌, ℕ, List};
ghost use Rattle.calc_parser.specs.Formulas.{IsTree};
ghost use Rattle.calc_parser.specs.Tree.{Tree};

/// A text has at most one tree.
pub fn one_tree()
    ensures { (text : List ℕ) (t u : Tree) → IsTree text t → IsTree text u → t ≡ u }
{}
