//! Jobs, as a list.

ghost use Rattle.std.specs.Prelude.{◌≡◌, ◌+◌, ◌^◌, ◌<◌, ◌≤◌, slice_get, Some, not, ◌&&◌, [], length, map, vec_len, vec_capacity, OnOk, OnErr};
ghost use Rattle.std.specs.List.{count_by, position};
ghost use Rattle.tl_model.specs.Cells.{recipes, is_among};
ghost use Rattle.render_core.specs.State.{is_open, is_queued, with_holder, without_holder, with_result, update, has_open, close_if, range, want_one, want_all};
ghost use Rattle.render_core.specs.Parts.{recipes_of, is_held_by, jobs_after};

use crate::frames::has_recipe;
use crate::job::Job;
use crate::results::Results;
use std::alloc::{AllocError, Global};
use std::marker::Model;
use time_list::{Lane, recipe_in};
use tl_model::{EditReply, Media, Recipe};

/// Jobs, counted from 1.
#[derive(Drop)]
pub(crate) struct Jobs {
    items: Vec<Job>,
}

impl Model for Jobs {
    ghost use Rattle.std.specs.Prelude.{List};
    ghost use Rattle.render_core.specs.declared.job.Job.{Job};

    ghost Value = { List Job };

    ghost view = { λ j. j.items.items };
}

impl Jobs {
    pub(crate) fn new(alloc: Global) -> Jobs
        ensures { result ≡ [] }
    {
        Jobs {
            items: Vec::new(alloc),
        }
    }

    pub(crate) fn len(&self) -> usize
        ensures { result ≡ length self.now }
    {
        self.items.len()
    }

    /// The job at a place.
    pub(crate) fn at(&self, place: usize) -> Job
        requires { place < length self.now }
        ensures { slice_get self.now place ≡ Some result }
    {
        self.items[place]
    }

    /// The place of the lowest queued job.
    pub(crate) fn lowest_queued(&self) -> Option<usize>
        ensures { result ≡ position is_queued self.now }
    {
        self.items.iter().position(|job| job.is_queued())
    }

    /// Whether the job at a place has this recipe and is held by the pass.
    pub(crate) fn is_held_by(&self, place: usize, by: u32, recipe: Recipe) -> bool
        ensures { result ≡ is_held_by by recipe (slice_get self.now place) }
    {
        is_held_by(&self.items, place, by, recipe)
    }

    /// Where an edit was made, closes each open job whose recipe is that of no frame.
    pub(crate) fn close_after<L: Lane>(&mut self, reply: EditReply, lane: &L, at: u64)
        ensures { self.new ≡ jobs_after reply (L.cells lane.now) at self.old }
    {
        if let EditReply::Ok { len: _ } = reply {
            close_unused_in(self.items.as_mut_slice(), lane, at);
        }
    }

    /// Closes each open job with a recipe of the range.
    pub(crate) fn close_range<L: Lane>(&mut self, lane: &L, first: u32, len: u32, at: u64)
        requires within { first + len ≤ length (L.cells lane.now) }
        requires small { first + len < 2 ^ 32 }
        ensures { self.new ≡ map (close_if (λ recipe. is_among recipe (range first len (L.cells lane.now))) at) self.old }
    {
        close_range_in(self.items.as_mut_slice(), lane, first, len, at);
    }

    /// How many open jobs have a recipe of the range.
    pub(crate) fn count_range<L: Lane>(&self, lane: &L, first: u32, len: u32) -> usize
        requires within { first + len ≤ length (L.cells lane.now) }
        requires small { first + len < 2 ^ 32 }
        ensures { result ≡ count_by (λ job. is_open job && is_among job.recipe (range first len (L.cells lane.now))) self.now }
    {
        count_range(&self.items, lane, first, len)
    }

    /// The pass takes the job at a place. The job as it was is answered.
    pub(crate) fn hold(&mut self, place: usize, by: u32) -> Job
        requires { place < length self.old }
        ensures jobs { self.new ≡ update place (with_holder by) self.old }
        ensures job { slice_get self.old place ≡ Some result }
        ensures fits { place + 1 < 2 ^ 64 }
    {
        hold(self.items.as_mut_slice(), place, by)
    }

    /// The job at a place is no longer held. The job as it was is answered.
    pub(crate) fn let_go(&mut self, place: usize) -> Job
        requires { place < length self.old }
        ensures jobs { self.new ≡ update place without_holder self.old }
        ensures job { slice_get self.old place ≡ Some result }
    {
        let_go(self.items.as_mut_slice(), place)
    }

    /// The job at a place is closed by its result.
    pub(crate) fn end(&mut self, place: usize, at: u64)
        requires { place < length self.old }
        ensures { self.new ≡ update place (with_result at) self.old }
    {
        end(self.items.as_mut_slice(), place, at);
    }

    /// Makes a job for each recipe of the range that isn't filed and has no open job.
    pub(crate) fn want_range<M: Media, L: Lane>(
        &mut self,
        lane: &L,
        results: &Results<M>,
        first: u32,
        len: u32,
    ) -> Result<(), AllocError>
        requires within { first + len ≤ length (L.cells lane.now) }
        requires small { first + len < 2 ^ 32 }
        ensures ok { OnOk result (self.new ≡ want_all (recipes_of results.now) (range first len (L.cells lane.now)) self.old) }
        ensures few { length self.new ≤ length self.old + len }
        ensures longer { length self.old ≤ length self.new }
        ensures err { OnErr result (self.new ≡ self.old) }
    {
        want_range(&mut self.items, lane, results, first, len)
    }
}

fn is_held_by(jobs: &[Job], place: usize, by: u32, recipe: Recipe) -> bool
    ensures { result ≡ is_held_by by recipe (slice_get jobs.now place) }
{
    match jobs.get(place) {
        None => false,
        Some(job) => match job.holder {
            None => false,
            Some(holder) => holder == by && recipe.is(job.recipe),
        },
    }
}

fn after_edit<L: Lane>(job: Job, lane: &L, at: u64) -> Job
    ensures { result ≡ close_if (λ recipe. not (is_among recipe (recipes (L.cells lane.now)))) at job }
{
    if job.is_open() && !lane.uses(job.recipe) {
        Job {
            closed: Some(at),
            ..job
        }
    } else {
        job
    }
}

#[tactic(auto, using(crate::proofs::JobLists::map_steps))]
fn close_unused_in<L: Lane>(jobs: &mut [Job], lane: &L, at: u64)
    ensures { jobs.new ≡ map (close_if (λ recipe. not (is_among recipe (recipes (L.cells lane.now)))) at) jobs.old }
{
    for job in jobs.iter_mut() {
        *job = after_edit(*job, lane, at);
    }
}

fn after_cancel<L: Lane>(job: Job, lane: &L, first: u32, len: u32, at: u64) -> Job
    requires within { first + len ≤ length (L.cells lane.now) }
    requires small { first + len < 2 ^ 32 }
    ensures { result ≡ close_if (λ recipe. is_among recipe (range first len (L.cells lane.now))) at job }
{
    if job.is_open() && has_recipe(lane, first, len, job.recipe) {
        Job {
            closed: Some(at),
            ..job
        }
    } else {
        job
    }
}

#[tactic(auto, using(crate::proofs::JobLists::map_steps))]
fn close_range_in<L: Lane>(jobs: &mut [Job], lane: &L, first: u32, len: u32, at: u64)
    requires within { first + len ≤ length (L.cells lane.now) }
    requires small { first + len < 2 ^ 32 }
    ensures { jobs.new ≡ map (close_if (λ recipe. is_among recipe (range first len (L.cells lane.now))) at) jobs.old }
{
    for job in jobs.iter_mut() {
        *job = after_cancel(*job, lane, first, len, at);
    }
}

fn is_in_range<L: Lane>(job: &Job, lane: &L, first: u32, len: u32) -> bool
    requires within { first + len ≤ length (L.cells lane.now) }
    requires small { first + len < 2 ^ 32 }
    ensures { result ≡ (is_open job.now && is_among job.now.recipe (range first len (L.cells lane.now))) }
{
    job.is_open() && has_recipe(lane, first, len, job.recipe)
}

#[tactic(auto, using(crate::proofs::JobLists::count_steps))]
fn count_range<L: Lane>(jobs: &[Job], lane: &L, first: u32, len: u32) -> usize
    requires within { first + len ≤ length (L.cells lane.now) }
    requires small { first + len < 2 ^ 32 }
    ensures { result ≡ count_by (λ job. is_open job && is_among job.recipe (range first len (L.cells lane.now))) jobs.now }
{
    let mut count = 0;
    for job in jobs {
        if is_in_range(job, lane, first, len) {
            count += 1;
        }
    }
    count
}

fn hold(jobs: &mut [Job], place: usize, by: u32) -> Job
    requires { place < length jobs.old }
    ensures jobs { jobs.new ≡ update place (with_holder by) jobs.old }
    ensures job { slice_get jobs.old place ≡ Some result }
{
    let job = jobs[place];
    jobs[place] = Job {
        holder: Some(by),
        ..job
    };
    job
}

fn let_go(jobs: &mut [Job], place: usize) -> Job
    requires { place < length jobs.old }
    ensures jobs { jobs.new ≡ update place without_holder jobs.old }
    ensures job { slice_get jobs.old place ≡ Some result }
{
    let job = jobs[place];
    jobs[place] = Job {
        holder: None,
        ..job
    };
    job
}

fn end(jobs: &mut [Job], place: usize, at: u64)
    requires { place < length jobs.old }
    ensures { jobs.new ≡ update place (with_result at) jobs.old }
{
    let job = jobs[place];
    jobs[place] = Job {
        holder: None,
        closed: Some(at),
        ..job
    };
}

fn has_open(jobs: &[Job], recipe: Recipe) -> bool
    ensures { result ≡ has_open recipe jobs.now }
{
    jobs.iter()
        .any(|job| job.is_open() && recipe.is(job.recipe))
}

fn want_recipe<M: Media>(jobs: &mut Vec<Job>, results: &Results<M>, recipe: Recipe)
    requires { vec_len jobs.old < vec_capacity jobs.old }
    ensures jobs { jobs.new.items ≡ want_one (recipes_of results.now) recipe jobs.old.items }
    ensures len { vec_len jobs.new ≤ vec_len jobs.old + 1 }
    ensures longer { vec_len jobs.old ≤ vec_len jobs.new }
    ensures capacity { vec_capacity jobs.new ≡ vec_capacity jobs.old }
{
    if results.place_of(recipe).is_none() && !has_open(jobs, recipe) {
        jobs.push_reserved(Job {
            recipe,
            holder: None,
            closed: None,
        });
    }
}

#[tactic(auto, using(crate::proofs::JobLists::want_steps))]
fn want_range<M: Media, L: Lane>(
    jobs: &mut Vec<Job>,
    lane: &L,
    results: &Results<M>,
    first: u32,
    len: u32,
) -> Result<(), AllocError>
    requires within { first + len ≤ length (L.cells lane.now) }
    requires small { first + len < 2 ^ 32 }
    ensures ok { OnOk result (jobs.new.items ≡ want_all (recipes_of results.now) (range first len (L.cells lane.now)) jobs.old.items) }
    ensures few { vec_len jobs.new ≤ vec_len jobs.old + len }
    ensures longer { vec_len jobs.old ≤ vec_len jobs.new }
    ensures err { OnErr result (jobs.new.items ≡ jobs.old.items) }
{
    jobs.reserve(len as usize)?;
    for n in first..first + len {
        let recipe = recipe_in(lane, n);
        want_recipe(jobs, results, recipe);
    }
    Ok(())
}
