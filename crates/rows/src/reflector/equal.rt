// Whether two reflector rows are the same.
ghost use Rattle.std.specs.Prelude.{◌≡◌, ◌↔◌, IsTrue};
ghost use Rattle.std.specs.Cmp.Rules.{comparing};
ghost use Rattle.std.proofs.Common.{rules};
ghost use Rattle.rows.specs.Reflectors.{is_same_reflector};

use crate::reflector::Reflector;

fn is_same(one: &Reflector, other: &Reflector) -> bool
    ensures { result ≡ is_same_reflector one.now other.now }
{
    one.name == other.name && one.offset == other.offset
}

impl PartialEq for Reflector {
    ghost eq = { is_same_reflector };

    ghost laws = { Prim.search (comparing, rules) };

    /// Whether the names and the offsets are equal: then the rows are identical.
    #[tactic(auto, using(crate::specs::ReflectorRows::identical))]
    fn eq(&self, other: &Reflector) -> bool
        ensures gives { result ≡ is_same_reflector self.now other.now }
        ensures same { IsTrue result ↔ (self.now ≡ other.now) }
    {
        is_same(self, other)
    }
}

impl Eq for Reflector {
    ghost laws = { Prim.search (comparing, rules) };
}
