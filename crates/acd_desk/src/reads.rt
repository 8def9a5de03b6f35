//! The reads of a desk.

ghost use Rattle.std.specs.Prelude.{Ok};
ghost use Rattle.std.specs.Fn.{FnOnceTakesAt};
ghost use Rattle.acd_terms.specs.declared.rows.Rows.{Rows};
ghost use Rattle.acd_model.specs.Rules.First.{BreaksNoRule};
ghost use Rattle.acd_book.specs.Content.{events_page, monitor_page};
ghost use Rattle.acd_desk.specs.Desks.DeskState.{state_of};
ghost use Rattle.acd_desk.specs.Reads.DeskReads.{MadeBy, DeskRead, DeskFinds, DeskLists, DeskReadText};
ghost use Rattle.acd_desk.specs.Reads.ReadAnswers.{text_read, agent_read, call_read, device_read, queue_read, report_read, snapshot_read, page_read, events_read, history_read, monitor_read, page_size, requests_page, requests_read, question_read, last_event_for, CountsKept};

use crate::desk::Desk;
use crate::fault::DeskFault;
use crate::question::Question;
use crate::request_pages::requests_text;
use crate::table_reads::{
    agent_read, call_read, device_read, queue_read, report_read, snapshot_read,
};
use crate::working::Working;
use acd_book::{Book, Kept};
use acd_codec::page_text;
use acd_tables::Tables;
use acd_terms::{AgentId, DeviceId, Event};
use std::alloc::AllocError;

// Events in a page.
const PAGE: usize = 100;

// Events in a page of history.
const HISTORY_PAGE: usize = 1000;

// Executed requests in a page.
const REQUESTS_PAGE: usize = 1000;

#[tactic(auto, using(crate::proofs::Pages::ReadsDone::read_made))]
impl<B: Book> Desk<B> {
    // A read of the tables.
    fn look<T, F: FnOnce(&Tables) -> T>(&mut self, reading: F) -> Result<T, DeskFault>
        requires { (rows : Rows) → BreaksNoRule rows → FnOnceTakesAt F.FnOnce reading rows }
        ensures { DeskRead B.Book self.old self.new result
            (MadeBy F.FnOnce reading) }
    {
        let loaded = self.switch_out()?;
        let found = reading(loaded.switch.tables());
        self.working = Working::Loaded(loaded);
        Ok(found)
    }

    // A text that is made of the tables.
    fn read_text<F: FnOnce(&Tables) -> Result<Option<String>, AllocError>>(
        &mut self,
        reading: F,
    ) -> Result<Option<String>, DeskFault>
        requires { (rows : Rows) → BreaksNoRule rows → FnOnceTakesAt F.FnOnce reading rows }
        ensures { DeskRead B.Book self.old self.new result
            (λ c text. MadeBy F.FnOnce reading c (Ok text)) }
    {
        match self.look(reading)? {
            Ok(text) => Ok(text),
            Err(_) => Err(DeskFault::NoMemory),
        }
    }

    /// An agent in JSON: who it is, its state, and where it is logged on. None where no such agent is planned.
    pub fn agent(&mut self, agent: AgentId) -> Result<Option<String>, DeskFault>
        ensures { DeskReadText B.Book self.old self.new result (λ c. agent_read c.rows agent) }
    {
        let alloc = self.alloc;
        self.read_text(|tables| agent_read(alloc, tables, agent))
    }

    /// A live call in JSON, with its connections. None where no live call has the number.
    pub fn call(&mut self, call: u64) -> Result<Option<String>, DeskFault>
        ensures { DeskReadText B.Book self.old self.new result (λ c. call_read c.rows call) }
    {
        let alloc = self.alloc;
        self.read_text(|tables| call_read(alloc, tables, call))
    }

    /// A planned device in JSON: a group, or a station with its agent and connections. None where it isn't planned.
    pub fn device(&mut self, device: DeviceId) -> Result<Option<String>, DeskFault>
        ensures { DeskReadText B.Book self.old self.new result (λ c. device_read c.rows device) }
    {
        let alloc = self.alloc;
        self.read_text(|tables| device_read(alloc, tables, device))
    }

    /// The queue of a group in JSON: the calls that wait by their places, and the eligible agents, longest ready
    /// first. None where the group isn't planned.
    pub fn queue(&mut self, group: DeviceId) -> Result<Option<String>, DeskFault>
        ensures { DeskReadText B.Book self.old self.new result (λ c. queue_read c.rows group) }
    {
        let alloc = self.alloc;
        self.read_text(|tables| queue_read(alloc, tables, group))
    }

    /// The queue report at a moment (in seconds), or at the last executed one where that is later. It moves no
    /// moment. There always is one.
    pub fn report(&mut self, moment: u32) -> Result<Option<String>, DeskFault>
        ensures { DeskReadText B.Book self.old self.new result (λ c. report_read c.rows moment) }
    {
        let alloc = self.alloc;
        self.read_text(|tables| report_read(alloc, tables, moment))
    }

    /// All agents, live calls, groups, monitors and stations in JSON, each list in ascending number, with the number of
    /// the last event and the moment of the last executed request. There always is one.
    pub fn snapshot(&mut self) -> Result<Option<String>, DeskFault>
        ensures { DeskReadText B.Book self.old self.new result (λ c. snapshot_read c.rows) }
    {
        let alloc = self.alloc;
        self.read_text(|tables| snapshot_read(alloc, tables))
    }
}

#[tactic(auto, using(crate::proofs::Pages::ReadsDone::read_looked))]
impl<B: Book> Desk<B> {
    // The number of the last event.
    fn last_event(&mut self) -> Result<u64, DeskFault>
        ensures { DeskFinds B.Book self.old self.new result (λ c. c.rows.last_event) }
    {
        self.look(|tables| tables.last_event())
    }

    // The stamp of the last executed request.
    fn last_stamp(&mut self) -> Result<u64, DeskFault>
        ensures { DeskFinds B.Book self.old self.new result (λ c. c.rows.last_stamp) }
    {
        self.look(|tables| tables.last_stamp())
    }

    /// How many requests were executed. A sound book keeps as many records, unless an archive has some.
    pub fn executed(&mut self) -> Result<u64, DeskFault>
        ensures kept { DeskRead B.Book self.old self.new result CountsKept }
        ensures last { DeskFinds B.Book self.old self.new result (λ c. c.rows.last_stamp) }
    {
        self.last_stamp()
    }

    // The number of the last event, where the monitor is running.
    fn last_event_for(&mut self, monitor: u64) -> Result<Option<u64>, DeskFault>
        ensures { DeskFinds B.Book self.old self.new result (last_event_for monitor) }
    {
        self.look(|tables| if tables.monitor(monitor).is_some() {
            Some(tables.last_event())
        } else {
            None
        })
    }

    // The first events above a number.
    pub(crate) fn first_events(&mut self, after: u64, limit: usize) -> Result<Vec<Event>, DeskFault>
        ensures { DeskLists B.Book self.old self.new result (events_page after limit) }
    {
        if let Working::Failed = self.working {
            return Err(DeskFault::StoreFault);
        }
        match self.book.events_after(after, limit) {
            Ok(events) => Ok(events),
            Err(fault) => Err(self.failed(fault)),
        }
    }

    // The first events of a running monitor above a number.
    fn first_watched(&mut self, monitor: u64, after: u64) -> Result<Vec<Event>, DeskFault>
        ensures { DeskLists B.Book self.old self.new result
            (monitor_page monitor after page_size) }
    {
        if let Working::Failed = self.working {
            return Err(DeskFault::StoreFault);
        }
        match self.book.events_of_monitor(monitor, after, PAGE) {
            Ok(events) => Ok(events),
            Err(fault) => Err(self.failed(fault)),
        }
    }

    // The first executed requests above a stamp.
    fn first_requests(&mut self, after: u64) -> Result<Vec<Kept>, DeskFault>
        ensures { DeskLists B.Book self.old self.new result (λ c. requests_page c after) }
    {
        if let Working::Failed = self.working {
            return Err(DeskFault::StoreFault);
        }
        match self.book.requests_after(after, REQUESTS_PAGE) {
            Ok(kept) => Ok(kept),
            Err(fault) => Err(self.failed(fault)),
        }
    }

    // The first events above a number, so many at most, beside the number of the last one.
    fn page(&mut self, after: u64, size: usize) -> Result<Option<String>, DeskFault>
        ensures { DeskReadText B.Book self.old self.new result (λ c. page_read c after size) }
    {
        let last = self.last_event()?;
        let events = self.first_events(after, size)?;
        Ok(Some(page_text(self.alloc, &events, last)?))
    }

    /// A page of events in JSON: the first ones above a number, at most 100, beside the number of the last one.
    /// There always is one.
    pub fn events(&mut self, after: u64) -> Result<Option<String>, DeskFault>
        ensures { DeskReadText B.Book self.old self.new result (λ c. events_read c after) }
    {
        self.page(after, PAGE)
    }

    /// The same with at most 1000 events, for those who follow from a long way back.
    pub fn history(&mut self, after: u64) -> Result<Option<String>, DeskFault>
        ensures { DeskReadText B.Book self.old self.new result (λ c. history_read c after) }
    {
        self.page(after, HISTORY_PAGE)
    }

    /// A page of the events at a monitor's device since it was started. None where no such monitor is running.
    pub fn monitor_events(&mut self, monitor: u64, after: u64) -> Result<Option<String>, DeskFault>
        ensures { DeskReadText B.Book self.old self.new result (λ c. monitor_read c monitor after) }
    {
        let Some(last) = self.last_event_for(monitor)? else {
            return Ok(None);
        };
        let events = self.first_watched(monitor, after)?;
        Ok(Some(page_text(self.alloc, &events, last)?))
    }

    /// A page of the executed requests in JSON: the first ones above a stamp, at most 1000, with their executed moments, their
    /// replies and statuses, beside the stamp of the last one. There always is one. It is JSON where the replies that are
    /// kept are.
    pub fn requests(&mut self, after: u64) -> Result<Option<String>, DeskFault>
        ensures { DeskReadText B.Book self.old self.new result (λ c. requests_read c after) }
    {
        let last = self.last_stamp()?;
        let kept = self.first_requests(after)?;
        Ok(Some(requests_text(self.alloc, &kept, last)?))
    }

    /// The answer to a question at a moment (in seconds), which counts for a report alone. None where there is no such
    /// thing.
    pub fn read(&mut self, moment: u32, question: Question) -> Result<Option<String>, DeskFault>
        ensures { DeskReadText B.Book self.old self.new result
            (λ c. question_read c moment question) }
    {
        match question {
            Question::Agent(agent) => self.agent(agent),
            Question::Call(call) => self.call(call),
            Question::Device(device) => self.device(device),
            Question::Queue(group) => self.queue(group),
            Question::Events(after) => self.events(after),
            Question::History(after) => self.history(after),
            Question::MonitorEvents(monitor, after) => self.monitor_events(monitor, after),
            Question::Requests(after) => self.requests(after),
            Question::Report => self.report(moment),
            Question::Snapshot => self.snapshot(),
        }
    }
}
