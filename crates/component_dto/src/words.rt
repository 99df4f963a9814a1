//! The words of a description's fields (OSGi Compendium 8, chapter 112).
ghost use Rattle.std.specs.Prelude.{◌≡◌};
ghost use Rattle.component_dto.specs.Words.{cardinality_of, configuration_policy_of, policy_of, policy_option_of, reference_scope_of, scope_of};

use crate::references::ReferenceScope;
use crate::{ConfigurationPolicy, Scope};
use prop_map::{Cardinality, Policy, PolicyOption};

/// A value of a field that is written as one of a number of words.
pub(crate) trait Word: Copy {
    ghost use Rattle.std.specs.Prelude.{List, ℕ, Option};

    ghost word: { List ℕ → Option Self };

    /// The value that a word stands for.
    fn of_word(text: &str) -> Option<Self>
        ensures { result ≡ word text.now };
}

impl Word for Scope {
    ghost word = { scope_of };

    fn of_word(text: &str) -> Option<Scope> {
        match text {
            "singleton" => Some(Scope::Singleton),
            "bundle" => Some(Scope::Bundle),
            "prototype" => Some(Scope::Prototype),
            _ => None,
        }
    }
}

impl Word for ConfigurationPolicy {
    ghost word = { configuration_policy_of };

    fn of_word(text: &str) -> Option<ConfigurationPolicy> {
        match text {
            "optional" => Some(ConfigurationPolicy::Optional),
            "require" => Some(ConfigurationPolicy::Require),
            "ignore" => Some(ConfigurationPolicy::Ignore),
            _ => None,
        }
    }
}

impl Word for Cardinality {
    ghost word = { cardinality_of };

    fn of_word(text: &str) -> Option<Cardinality> {
        match text {
            "0..1" => Some(Cardinality::ZeroOrOne),
            "1..1" => Some(Cardinality::One),
            "0..n" => Some(Cardinality::ZeroOrMore),
            "1..n" => Some(Cardinality::OneOrMore),
            _ => None,
        }
    }
}

impl Word for Policy {
    ghost word = { policy_of };

    fn of_word(text: &str) -> Option<Policy> {
        match text {
            "static" => Some(Policy::Static),
            "dynamic" => Some(Policy::Dynamic),
            _ => None,
        }
    }
}

impl Word for PolicyOption {
    ghost word = { policy_option_of };

    fn of_word(text: &str) -> Option<PolicyOption> {
        match text {
            "reluctant" => Some(PolicyOption::Reluctant),
            "greedy" => Some(PolicyOption::Greedy),
            _ => None,
        }
    }
}

impl Word for ReferenceScope {
    ghost word = { reference_scope_of };

    fn of_word(text: &str) -> Option<ReferenceScope> {
        match text {
            "bundle" => Some(ReferenceScope::Bundle),
            "prototype" => Some(ReferenceScope::Prototype),
            "prototype_required" => Some(ReferenceScope::PrototypeRequired),
            _ => None,
        }
    }
}
