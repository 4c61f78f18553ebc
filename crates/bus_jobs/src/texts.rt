//! The texts of the help.

// The version of the program.
pub(crate) const VERSION: &str = "1.0.0";

// The purpose of the program.
pub(crate) const ABOUT: &str = "Runs UVM-style testbenches from scripts";

// The purpose of the program, in detail.
pub(crate) const LONG_ABOUT: &str = "Runs UVM-style testbenches (IEEE 1800.2-2020) from scripts.

A script is a TOML document. It declares the types of a testbench and names its test; it may
override types, set fields and decide how reports are handled. The objects are those of a memory
bus, which are built in.";

// The purpose of `debug`.
pub(crate) const ABOUT_DEBUG: &str =
    "Prints which type the factory of a testbench makes at each probe of a script";

// The purpose of `run`.
pub(crate) const ABOUT_RUN: &str = "Runs the testbench of a script and prints its reports";

// The exit statuses, and the place of further documentation.
pub(crate) const STATUSES: &str = "Exit status:
  0  clean
  1  an ERROR or a FATAL was counted, or the run did not finish
  2  the script or the command line was refused
  3  out of memory, log full, output failed, or the file was not read

Keys of a script and built-in types: docs/REFERENCE.md";

// An example run of the memory bus.
pub(crate) const EXAMPLE_RUN: &str = "Example, in crates/bus_bench:

$ bus_bench run data/bus.toml
UVM_INFO @ 2: uvm_test_top.env.agent.mon [MON] write 0 10
UVM_INFO @ 4: uvm_test_top.env.agent.mon [MON] read 0 10
UVM_INFO @ 4: uvm_test_top.env.sb [SB] 2 seen 0 bad

and then the summary of the reports.";

// An example script with a probe, and the line that `debug` prints.
pub(crate) const EXAMPLE_DEBUG: &str = "Example, with this script as loud.toml:

  version = 1
  test = \"loud\"

  [[type]]
  name = \"loud\"
  kind = \"component\"

  [[probe]]
  type = \"loud\"
  path = \"uvm_test_top\"

$ bus_bench debug loud.toml
loud @ uvm_test_top -> loud";
