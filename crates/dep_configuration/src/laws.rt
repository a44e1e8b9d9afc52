//! Laws of configurations, apart from any code.
ghost use Rattle.dep_configuration.specs.Configured.{IsConfiguration};
ghost use Rattle.dep_configuration.specs.Example.{example_configuration};

use crate::example::EXAMPLE;

/// The example is read, as the configuration that it shows.
pub fn example_is_read()
    ensures { IsConfiguration example_configuration EXAMPLE.now }
{}
