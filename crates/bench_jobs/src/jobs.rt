//! The jobs by their names.

use crate::asked::Asked;
use crate::chance::Chance;
use crate::digest::Digest;
use crate::goban::Goban;
use crate::texts::awkward::{add_fight_games, add_lecture, add_wide, make_fights};
use crate::texts::games::Games;
use crate::texts::joseki::add_joseki;
use crate::texts::problems::{add_problems, make_problems};
use crate::texts::{Text, Words};
use std::alloc::{AllocError, Global};

/// The bytes that a size stands for.
const UNIT: usize = 1 << 16;

/// The names of the jobs, in the order of `run_one`: libraries and collections of problems in list form, libraries in sgf form, libraries and collections of problems
/// in gtp form, joseki dictionaries, small games, what is rare, and libraries and games that a reader gives.
const NAMES: [&str; 7] = [
    "verdicts", "games", "scripts", "joseki", "small", "awkward", "reader",
];

/// The numbers of what is done with a text: it is split into one of the forms, or counted.
const LIST: usize = 0;

const SGF: usize = 1;

const GTP: usize = 2;

const COUNT: usize = 3;

/// The digest of what a job writes; 0 if there is no job of this name. The name `all` stands for all jobs.
pub(crate) fn digest_of(
    alloc: Global,
    name: &str,
    seed: u64,
    size: u64,
) -> Result<u64, AllocError> {
    let mut bench = Bench::new(alloc, seed, size);
    bench.run(alloc, name)
}

/// A job on texts that are made up.
#[derive(Drop)]
struct Bench {
    jobs: Jobs,
    size: u16,
    /// The text that was made up last.
    text: Text,
    chance: Chance,
    digest: Digest,
}

impl Bench {
    /// Before any job.
    fn new(alloc: Global, seed: u64, size: u64) -> Bench {
        Bench {
            jobs: Jobs::new(alloc),
            size: size.min(4096) as u16,
            text: Text::new(alloc),
            chance: Chance::new(seed),
            digest: Digest::new(),
        }
    }

    /// Does the job of this name, or all jobs. Returns the digest of what they write; 0 if there is no job of this name.
    fn run(&mut self, alloc: Global, name: &str) -> Result<u64, AllocError> {
        let mut digest = 0;
        for (number, known) in NAMES.iter().enumerate() {
            if name == "all" || name == *known {
                self.run_one(alloc, number);
                digest = self.digest.value();
            }
        }
        if self.text.is_cut() {
            return Err(AllocError);
        }
        Ok(digest)
    }

    /// Does the job with this number.
    fn run_one(&mut self, alloc: Global, number: usize) {
        let size = usize::from(self.size);
        match number {
            0 => self.libraries_and_problems(alloc, LIST, size * 3 * UNIT),
            1 => self.games(alloc, size * 3 * UNIT),
            2 => self.libraries_and_problems(alloc, GTP, size * 2 * UNIT),
            3 => self.joseki(alloc, size * 1024),
            4 => self.small(alloc, size * 400),
            5 => self.awkward(alloc, size),
            _ => self.reader(alloc, size * 3 * UNIT, size * 30),
        }
    }

    /// Does with the text what has this number. If `is_read`, a reader gives the text, as files are read.
    fn act(&mut self, alloc: Global, number: usize, is_read: bool) {
        let asked = self.jobs.of(number);
        let text = self.text.bytes();
        let done = asked.run(alloc, text, is_read, &mut self.digest);
        self.text.keep(done.is_ok());
    }

    /// Splits the text in list form and in sgf form.
    fn split_both(&mut self, alloc: Global) {
        self.act(alloc, LIST, false);
        self.act(alloc, SGF, false);
    }

    /// Games on 19 by 19 with up to `moves` moves, and with comments.
    fn usual_games(&mut self, alloc: Global, moves: usize) -> Games {
        let words = Words::new(alloc, 4096, &mut self.chance);
        let count = 4 * usize::from(self.size);
        Games::new(alloc, count, moves, &words, &mut self.chance)
    }

    /// Libraries of so many bytes, and collections of problems.
    fn libraries_and_problems(&mut self, alloc: Global, form: usize, library: usize) {
        let size = usize::from(self.size);
        let words = Words::new(alloc, 4096, &mut self.chance);
        let games = Games::new(alloc, 4 * size, 260, &words, &mut self.chance);
        let problems = make_problems(alloc, 10 * size, &mut self.chance);
        for _ in 0..3 {
            self.text.clear();
            games.add_library(&mut self.text, library, &mut self.chance);
            self.act(alloc, form, false);
            self.text.clear();
            let text = &mut self.text;
            add_problems(text, &problems, &words, size * UNIT, &mut self.chance);
            self.act(alloc, form, false);
        }
    }

    /// Libraries of so many bytes in sgf form. Each is counted first, and a page is written of it.
    fn games(&mut self, alloc: Global, library: usize) {
        let games = self.usual_games(alloc, 260);
        for _ in 0..6 {
            self.text.clear();
            let middle = games.add_library(&mut self.text, library, &mut self.chance);
            self.act(alloc, COUNT, false);
            self.page(alloc, middle);
            self.act(alloc, SGF, false);
        }
    }

    /// Writes the page of the text after the line at `place`.
    fn page(&mut self, alloc: Global, place: usize) {
        let is_done = match page_after(alloc, place) {
            Ok(page) => {
                let text = self.text.bytes();
                page.run(alloc, text, false, &mut self.digest).is_ok()
            }
            Err(_) => false,
        };
        self.text.keep(is_done);
    }

    /// Joseki dictionaries, which grow with `parts`, in list form and in sgf form.
    fn joseki(&mut self, alloc: Global, parts: usize) {
        let words = Words::new(alloc, 4096, &mut self.chance);
        for _ in 0..2 {
            self.text.clear();
            add_joseki(alloc, &mut self.text, &words, parts, &mut self.chance);
            self.split_both(alloc);
        }
    }

    /// So many small games, each in a call of its own: verdicts, single games or scripts in turn. No two calls get the same text.
    fn small(&mut self, alloc: Global, count: usize) {
        let games = self.usual_games(alloc, 170);
        for i in 0..count {
            self.text.clear();
            games.add_part(&mut self.text, i, i % 4 == 0, &mut self.chance);
            self.act(alloc, i % 3, false);
        }
    }

    /// So many times two texts: one of boards of 52, fights without end, positions taken up again, and very many variations of one move,
    /// and one of comments of pages, in list form and in sgf form.
    fn awkward(&mut self, alloc: Global, count: usize) {
        let words = Words::new(alloc, 40_000, &mut self.chance);
        let fights = make_fights(alloc, count / 32 + 1, 1500, &mut self.chance);
        let mut goban = Goban::new(19);
        for i in 0..count {
            self.text.clear();
            let text = &mut self.text;
            add_fight_games(text, &fights, &words, i, &mut self.chance);
            add_wide(text, &words, &mut goban, 120, 1000, &mut self.chance);
            self.act(alloc, LIST, false);
            self.text.clear();
            let text = &mut self.text;
            add_lecture(text, &words, &mut goban, 20, &mut self.chance);
            self.split_both(alloc);
        }
    }

    /// Three libraries of so many bytes, and so many single games, which a reader gives, as files are read.
    fn reader(&mut self, alloc: Global, library: usize, count: usize) {
        let games = self.usual_games(alloc, 260);
        for _ in 0..3 {
            self.text.clear();
            games.add_library(&mut self.text, library, &mut self.chance);
            self.read(alloc);
        }
        for _ in 0..count {
            self.text.clear();
            games.add_one(&mut self.text, true, &mut self.chance);
            self.read(alloc);
        }
    }

    /// Counts the text as a reader gives it, and splits it in list form and in sgf form.
    fn read(&mut self, alloc: Global) {
        self.act(alloc, COUNT, true);
        self.act(alloc, LIST, true);
        self.act(alloc, SGF, true);
    }
}

/// The jobs that are done on one text after another.
#[derive(Drop)]
struct Jobs {
    count: Asked,
    list: Asked,
    sgf: Asked,
    gtp: Asked,
}

impl Jobs {
    /// A count, and a split into each form.
    fn new(alloc: Global) -> Jobs {
        Jobs {
            count: Asked::new(alloc, &["sgfsplit", "count"]),
            list: Asked::new(alloc, &["sgfsplit", "split"]),
            sgf: Asked::new(alloc, &["sgfsplit", "split", "--form", "sgf"]),
            gtp: Asked::new(alloc, &["sgfsplit", "split", "--form", "gtp"]),
        }
    }

    /// The job with this number.
    fn of(&self, number: usize) -> &Asked {
        match number {
            LIST => &self.list,
            SGF => &self.sgf,
            GTP => &self.gtp,
            _ => &self.count,
        }
    }
}

/// The job that writes the twenty lines after the one at `place`, in list form.
fn page_after(alloc: Global, place: usize) -> Result<Asked, AllocError> {
    let place = format!(in alloc; "{place}")?;
    let words = [
        "sgfsplit",
        "split",
        "--after",
        place.as_str(),
        "--limit",
        "20",
    ];
    Ok(Asked::new(alloc, &words))
}
