ghost use Rattle.std.specs.Prelude.{◌≡◌};
ghost use Rattle.ct_base.specs.Resources.{AreDistinct};
ghost use Rattle.ct_spec.specs.Specification.{resources_in};
ghost use Rattle.ct_spec.specs.Read.{ReadsResources};

use crate::SpecFault;
use crate::document::resources_of;
use crate::json::json_in;
use ct_base::{List, Resource};
use std::alloc::Global;
use std::marker::Model;

/// The resources that a machine lends to tests. Contracts see them in order.
///
/// Source: CMake manual, ctest(1), Resource Specification File.
#[derive(Drop)]
pub struct Spec {
    resources: List<Resource>,
}

impl Model for Spec {
    ghost use Rattle.std.specs.Prelude.{List};
    ghost use Rattle.ct_base.specs.declared.defs.Resource.{Resource};
    ghost use Rattle.ct_base.specs.Resources.{AreDistinct};

    ghost Value = { List Resource };

    ghost view = { λ s. s.resources };

    ghost invariant = { λ s. AreDistinct s.resources };
}

impl Spec {
    /// Reads the text of a resource specification, or finds its first fault.
    ///
    /// The types are read in byte order of their names, and the entries of each in file order.
    /// Members that the specification does not know are passed over.
    ///
    /// Source: CMake manual, ctest(1), Resource Specification File. The faults and the limits are
    /// this project's choice.
    pub fn parse(alloc: Global, text: &[u8]) -> Result<Spec, SpecFault>
        ensures { ReadsResources result (resources_in text.now) }
    {
        let Some(value) = json_in(alloc, text)? else {
            return Err(SpecFault::NotJson);
        };
        let resources = resources_of(alloc, &value)?;
        Ok(Spec { resources })
    }

    /// Lends the resources: types in byte order of their names, the entries of each in file order.
    pub fn resources(&self) -> &List<Resource>
        ensures is { result.now ≡ self.now }
        ensures distinct { AreDistinct self.now }
    {
        &self.resources
    }
}
