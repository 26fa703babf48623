//! What an entry makes of models and runs.
ghost use Rattle.std.specs.Prelude.{◌≡◌, ◌<◌, ◌||◌, ℕ, Some, IfSome, length, slice_index_or, unwrap_or, if◌then◌else◌};
ghost use Rattle.job_calls.specs.Entries.{is_run};
ghost use Rattle.job_calls.specs.Runs.{last_of};
ghost use Rattle.model_table.specs.Tables.{unknown_model, model_told, IsModelAfter};
ghost use Rattle.model_table.specs.Steps.{run_of, IsLoaded, IsUnloaded, IsCurrent, end_in, is_started_in, source_in, HasEnded, HasStarted, WasAsked, IsOver};

use crate::model::Model;
use crate::run::Run;
use growing_lists::{at, put};
use job_calls::{Call, End, Entry, Reply};

/// The model was loaded from this source.
fn load(models: &mut Vec<Model>, number: u32, source: u32)
    requires { number < length models.old.items }
    ensures { IsLoaded models.old.items models.new.items number source }
{
    let model = at(models, number, Model::UNKNOWN);
    put(
        models,
        number,
        Model {
            source: Some(source),
            loaded: true,
            current: model.current,
        },
    );
}

/// The model was unloaded.
fn unload(models: &mut Vec<Model>, number: u32)
    ensures { IsUnloaded models.old.items models.new.items number }
{
    let model = at(models, number, Model::UNKNOWN);
    put(
        models,
        number,
        Model {
            source: model.source,
            loaded: false,
            current: model.current,
        },
    );
}

/// The run is the current one of the model.
fn set_current(models: &mut Vec<Model>, number: u32, run: u32)
    requires { number < length models.old.items }
    ensures { IsCurrent models.old.items models.new.items number run }
{
    let model = at(models, number, Model::UNKNOWN);
    put(
        models,
        number,
        Model {
            source: model.source,
            loaded: model.loaded,
            current: Some(run),
        },
    );
}

/// What the entry tells of a model.
pub(crate) fn tell_models(models: &mut Vec<Model>, entry: &Entry)
    requires { (m : ℕ) → model_told entry.now.call entry.now.reply ≡ Some m
        → m < length models.old.items }
    ensures models { (m : ℕ)
        → IsModelAfter (slice_index_or models.old.items m unknown_model) (slice_index_or models.new.items m unknown_model) m entry.now }
{
    match (&entry.call, &entry.reply) {
        (_, Reply::Loaded { model, source }) => load(models, *model, *source),
        (Call::Unload { model }, Reply::Unit) => unload(models, *model),
        (Call::Run { model, .. }, Reply::Started { run }) => set_current(models, *model, *run),
        _ => (),
    }
}

/// The run has ended so, if one has.
fn end(runs: &mut Vec<Run>, told: Option<(u32, End)>)
    requires { IfSome told (λ t. t.0 < length runs.old.items) }
    ensures { HasEnded runs.old.items runs.new.items told }
{
    if let Some((number, end)) = told {
        let run = at(runs, number, Run::UNKNOWN);
        put(
            runs,
            number,
            Run {
                start: run.start,
                source: run.source,
                end: Some(end),
                asked: run.asked,
                over: run.over,
            },
        );
    }
}

/// The run was started from this source by the entry at this place, if one was.
fn start(runs: &mut Vec<Run>, told: Option<(u32, Option<u32>)>, place: u32)
    requires { IfSome told (λ t. t.0 < length runs.old.items) }
    ensures { HasStarted runs.old.items runs.new.items told place }
{
    if let Some((number, source)) = told {
        let run = at(runs, number, Run::UNKNOWN);
        put(
            runs,
            number,
            Run {
                start: Some(place),
                source,
                end: run.end,
                asked: run.asked,
                over: run.over,
            },
        );
    }
}

/// The run was asked to stop, if one was.
fn ask(runs: &mut Vec<Run>, told: Option<u32>)
    requires { IfSome told (λ number. number < length runs.old.items) }
    ensures { WasAsked runs.old.items runs.new.items told }
{
    if let Some(number) = told {
        let run = at(runs, number, Run::UNKNOWN);
        put(
            runs,
            number,
            Run {
                start: run.start,
                source: run.source,
                end: run.end,
                asked: true,
                over: run.over,
            },
        );
    }
}

/// The run was answered that it is to end, if one was.
fn stop(runs: &mut Vec<Run>, told: Option<u32>)
    requires { IfSome told (λ number. number < length runs.old.items) }
    ensures { IsOver runs.old.items runs.new.items told }
{
    if let Some(number) = told {
        let run = at(runs, number, Run::UNKNOWN);
        put(
            runs,
            number,
            Run {
                start: run.start,
                source: run.source,
                end: run.end,
                asked: run.asked,
                over: true,
            },
        );
    }
}

/// What an entry tells of runs.
#[derive(Drop)]
pub(crate) struct Told {
    pub(crate) ended: Option<(u32, End)>,
    pub(crate) started: Option<(u32, Option<u32>)>,
    pub(crate) asked: Option<u32>,
    pub(crate) over: Option<u32>,
}

/// What the entry at this place tells of runs.
pub(crate) fn tell_runs(runs: &mut Vec<Run>, told: Told, place: u32)
    requires ended { IfSome told.ended (λ t. t.0 < length runs.old.items) }
    requires started { IfSome told.started (λ t. t.0 < length runs.old.items) }
    requires asked { IfSome told.asked (λ number. number < length runs.old.items) }
    requires over { IfSome told.over (λ number. number < length runs.old.items) }
    ensures start { (k : ℕ) → (run_of runs.new.items k).start
        ≡ (if is_started_in told.started k then Some place else (run_of runs.old.items k).start) }
    ensures source { (k : ℕ) → (run_of runs.new.items k).source
        ≡ unwrap_or (source_in told.started k) (run_of runs.old.items k).source }
    ensures end { (k : ℕ) → (run_of runs.new.items k).end
        ≡ last_of (run_of runs.old.items k).end (end_in told.ended k) }
    ensures asked { (k : ℕ) → (run_of runs.new.items k).asked
        ≡ ((run_of runs.old.items k).asked || is_run k told.asked) }
    ensures over { (k : ℕ) → (run_of runs.new.items k).over
        ≡ ((run_of runs.old.items k).over || is_run k told.over) }
    ensures places { length runs.new.items ≡ length runs.old.items }
{
    end(runs, told.ended);
    start(runs, told.started, place);
    ask(runs, told.asked);
    stop(runs, told.over);
}
