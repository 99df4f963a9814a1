//! A document whose texts are shared, so that copies of them take no memory.
ghost use Rattle.std.specs.Prelude.{◌≡◌, IfOk};

use crate::BundleDoc;
use component_dto::{Description, Reference};
use prop_map::{List, OutOfMemory, Str};
use std::alloc::Global;

// A value whose texts can be shared.
trait SharesTexts: Sized + Drop {
    // An equal value: a copy of its texts takes no memory. For want of memory the value is dropped.
    fn with_shared_texts(self, alloc: Global) -> Result<Self, OutOfMemory>
        ensures { IfOk result (λ value. value ≡ self) };
}

/// The document as it is, with its texts shared: its location, name and activator, and of each component the name, the
/// class, the interfaces, the configuration PIDs, the callback, and of each of its references the names, the target and
/// the callback. A copy of one of these takes no memory. Its manifest and the properties of its components stay as they
/// are.
///
/// # Errors
/// Only want of memory. The document is dropped then.
pub fn with_shared_texts(alloc: Global, document: BundleDoc) -> Result<BundleDoc, OutOfMemory>
    ensures { IfOk result (λ shared. shared ≡ document) }
{
    document.with_shared_texts(alloc)
}

impl SharesTexts for Str {
    fn with_shared_texts(self, alloc: Global) -> Result<Str, OutOfMemory> {
        self.shared(alloc)
    }
}

impl<T: SharesTexts> SharesTexts for Option<T> {
    fn with_shared_texts(self, alloc: Global) -> Result<Option<T>, OutOfMemory> {
        match self {
            Some(value) => Ok(Some(value.with_shared_texts(alloc)?)),
            None => Ok(None),
        }
    }
}

impl<T: SharesTexts> SharesTexts for List<T> {
    fn with_shared_texts(self, alloc: Global) -> Result<List<T>, OutOfMemory> {
        let mut shared = Vec::new(alloc);
        for value in self.items() {
            shared.push(value.with_shared_texts(alloc)?)?;
        }
        Ok(List::of(shared))
    }
}

impl SharesTexts for Reference {
    fn with_shared_texts(mut self, alloc: Global) -> Result<Reference, OutOfMemory> {
        self.name = self.name.with_shared_texts(alloc)?;
        self.interface_name = self.interface_name.with_shared_texts(alloc)?;
        self.target = self.target.with_shared_texts(alloc)?;
        self.updated = self.updated.with_shared_texts(alloc)?;
        Ok(self)
    }
}

impl SharesTexts for Description {
    fn with_shared_texts(mut self, alloc: Global) -> Result<Description, OutOfMemory> {
        self.name = self.name.with_shared_texts(alloc)?;
        self.implementation_class = self.implementation_class.with_shared_texts(alloc)?;
        self.service_interfaces = self.service_interfaces.with_shared_texts(alloc)?;
        self.references = self.references.with_shared_texts(alloc)?;
        self.modified = self.modified.with_shared_texts(alloc)?;
        self.configuration_pids = self.configuration_pids.with_shared_texts(alloc)?;
        Ok(self)
    }
}

impl SharesTexts for BundleDoc {
    fn with_shared_texts(mut self, alloc: Global) -> Result<BundleDoc, OutOfMemory> {
        self.location = self.location.with_shared_texts(alloc)?;
        self.name = self.name.with_shared_texts(alloc)?;
        self.activator = self.activator.with_shared_texts(alloc)?;
        self.descriptions = self.descriptions.with_shared_texts(alloc)?;
        Ok(self)
    }
}
