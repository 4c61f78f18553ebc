//! Benches: documents that were read, to be run once or many times.

ghost use Rattle.std.specs.Prelude.{◌≡◌, IfErr, IfOk, IsSome, None, Some, codes, option_copied};
ghost use Rattle.toml.specs.Data.{get_member};
ghost use Rattle.toml.specs.View.{table_view};
ghost use Rattle.bench_script.specs.Documents.{IsReadable, tree_of_bytes};
ghost use Rattle.script_input.specs.Scripts.{words_of_seed};
ghost use Rattle.script_jobs.specs.Benches.{HasRead, IsNoBench, IsRunOf, IsUnreadBench};
ghost use Rattle.script_jobs.specs.Runs.{HasBench, HasNoRun};

use crate::answers::answers_in;
use crate::runs::{refused, reported, run_objects, script_to_run, verdict_on};
use crate::verdicts::Verdict;
use bench_run::Sink;
use bench_script::{Script, read_document};
use rand_core::{Rng, SeedableRng};
use rand_pcg::Pcg64;
use script_input::Breakage;
use script_objects::Answers;
use std::alloc::Global;
use std::marker::Model;
use toml::Table;
use uvm_glob::Name;

/// A bench that can be run: the script of a document, which has a test, and the answers of its objects.
#[derive(Drop)]
pub struct Bench {
    script: Script,
    answers: Answers,
}

impl Model for Bench {
    ghost use Rattle.std.specs.Prelude.{◌≡◌, is_some, true};
    ghost use Rattle.script_jobs.specs.Benches.{BenchValue};

    ghost Value = { BenchValue };

    ghost view = { λ bench. record { script = bench.script; types = bench.answers } };

    ghost invariant = { λ bench. is_some bench.script.test ≡ true };
}

impl Bench {
    /// Reads a document, as `run_bench` does before a run. If `test` is given, it replaces the script's own test. Errors: the verdict of
    /// `run_bench` on a document that is rejected, or for which memory runs out before the run.
    pub fn read(alloc: Global, bytes: &[u8], test: Option<&Name>) -> Result<Bench, Verdict>
        ensures ok { IfOk result (HasRead bytes.now (option_copied test.entry)) }
        ensures err { IfErr result (IsUnreadBench bytes.now (option_copied test.entry)) }
        ensures kept { IfErr result HasNoRun }
    {
        match read_document(alloc, bytes) {
            Ok(root) => Bench::of_tree(alloc, &root, test),
            Err(fault) => Err(refused(fault)),
        }
    }

    // Reads the tree of a document. Errors: as those of `read`.
    pub(crate) fn of_tree(
        alloc: Global,
        root: &Table,
        test: Option<&Name>,
    ) -> Result<Bench, Verdict>
        ensures ok { IfOk result (λ bench. HasBench (table_view root.now) (option_copied test.entry) bench.script bench.types) }
        ensures err { IfErr result (IsNoBench (table_view root.now) (option_copied test.entry)) }
        ensures kept { IfErr result HasNoRun }
    {
        let script = match script_to_run(alloc, root, test) {
            Ok(script) => script,
            Err(fault) => return Err(reported(alloc, root, test, fault)),
        };
        match answers_in(alloc, root, &script) {
            Ok(answers) => Ok(Bench { script, answers }),
            Err(verdict) => Err(verdict),
        }
    }

    // Returns the script and the answers.
    pub(crate) fn into_parts(self) -> (Script, Answers)
        ensures script { result.0 ≡ self.script }
        ensures answers { result.1 ≡ self.types }
        ensures tested { IsSome result.0.test }
    {
        let Bench { script, answers } = self;
        (script, answers)
    }

    /// Runs the bench, as `run_bench` runs a document, with the random numbers of `Pcg64` from the seed. A bench can be run any number of times.
    pub fn run<S: Sink>(&self, alloc: Global, seed: u64, trace: bool, out: &mut S) -> Verdict
        ensures run { IsRunOf self.now (words_of_seed seed) trace (S.contents out.old) (S.contents out.new) result }
        ensures output { result ≡ Verdict.Broken Breakage.Output → S.refuses out.old }
    {
        let mut words = Pcg64::seed_from_u64(seed);
        self.run_over(alloc, &mut words, trace, out)
    }

    /// Runs the bench, as `run_bench` runs a document, with other random numbers.
    pub fn run_over<R: Rng, S: Sink>(
        &self,
        alloc: Global,
        words: &mut R,
        trace: bool,
        out: &mut S,
    ) -> Verdict
        ensures run { IsRunOf self.now (R.stream words.old) trace (S.contents out.old) (S.contents out.new) result }
        ensures output { result ≡ Verdict.Broken Breakage.Output → S.refuses out.old }
    {
        let Ok(script) = self.script.copy() else {
            return Verdict::Broken(Breakage::Memory);
        };
        let (ended, _core) = run_objects(alloc, script, &self.answers, words, trace, out);
        verdict_on(&ended)
    }
}
