//! The laws of every feed-forward pipeline, over stages of any kind.
ghost use Rattle.std.specs.Prelude.{◌≡◌, ◌<◌, ◌≤◌, ℕ, Bool, List, ◌∷◌, ◌++◌, length};
ghost use Rattle.pipeline_law.specs.Order.{AllCommute, DoesCycle, IsCycle, IsOrder, runs};
ghost use Rattle.pipeline_law.specs.Pipeline.{IsFeedForward, Midst, Pipeline, Row, drained, row_after};
ghost use Rattle.pipeline_law.specs.Queues.{AreEmpty, Event, IsSerialInQueues, IsSerialWhenEmpty, queues_after};
ghost use Rattle.pipeline_law.specs.Serial.{IsAloneInFlight, IsSerial, IsSerialOnPackets, IsSerialSoFar, IsShared, IsUnreached, TellsPackets};
ghost use Rattle.pipeline_law.specs.Stage.{AreApart, state_alone};

/// A kind of stage: the types that a pipeline is made of. What its stages do with them stands in the clauses, for every
/// pipeline over these types.
pub trait StageKind {
    /// The state of all stages.
    type State;
    /// A packet, or the idle item.
    type Item;
    /// A stage.
    type Stage;
    /// What one stage owns of the state.
    type Part;
}

/// Over any entries and a drain, a pipeline of any depth lets out what each entry makes alone, as many cycles after it
/// entered as there are stages (`items` of `serial`), and each stage's part of the state is then what the entries, each
/// alone, leave (`parts`). With no drain, what has left by then is the front part of that (`so_far`).
pub fn pipeline_is_serial<K: StageKind>()
    ensures serial { (p : Pipeline K.State K.Item K.Stage K.Part) (start : K.State) (entries : List K.Item)
        → IsFeedForward p → IsSerial p start entries }
    ensures so_far { (p : Pipeline K.State K.Item K.Stage K.Part) (start : K.State) (entries : List K.Item)
        → IsFeedForward p → IsSerialSoFar p start entries }
{}

/// Where each part of the state is owned by a stage or left alone by all of them, the whole state after any entries and
/// a drain is what the entries, each alone, leave.
pub fn whole_state_is_serial<K: StageKind, View>()
    ensures { (p : Pipeline K.State K.Item K.Stage K.Part) (start : K.State) (entries : List K.Item)
        (views : ℕ → K.State → View) → IsFeedForward p → IsShared p views
        → (row_after p start (drained p entries)).state ≡ state_alone p.run p.stages start entries }
{}

/// Over any entries and a drain, the packets that leave are those that entered, in order, each as it comes out alone,
/// and the idle entries among them leave no trace.
pub fn packets_are_serial<K: StageKind>()
    ensures { (p : Pipeline K.State K.Item K.Stage K.Part) (start : K.State) (entries : List K.Item)
        (is_packet : K.Item → Bool) → IsFeedForward p → TellsPackets p is_packet
        → IsSerialOnPackets p start is_packet entries }
{}

/// At each moment the packet in each register, and the part of the stage behind it, are what they would be with nothing
/// else in flight (`reached`); a register that no entry has reached is idle, and the stage behind it has done nothing
/// (`unreached`).
pub fn packets_in_flight_are_alone<K: StageKind>()
    ensures reached { (p : Pipeline K.State K.Item K.Stage K.Part) (start : K.State)
        (before : List K.Item) (item : K.Item) (after : List K.Item)
        → IsFeedForward p → length after < length p.stages → IsAloneInFlight p start before item after }
    ensures unreached { (p : Pipeline K.State K.Item K.Stage K.Part) (start : K.State) (entries : List K.Item) (k : ℕ)
        → IsFeedForward p → length entries ≤ k → k < length p.stages → IsUnreached p start entries k }
{}

/// Steps of which each two commute come to the same in any order (`same`). So, where they do what all stages of a cycle
/// do at once, they do the cycle in any order, with all that moves on at its end (`cycle`).
pub fn orders_agree<K: StageKind, Step>()
    ensures same { (step : Step → Midst K.State K.Item → Midst K.State K.Item) (all order : List Step) (m : Midst K.State K.Item)
        → AllCommute step all → IsOrder order all → runs step order m ≡ runs step all m }
    ensures cycle { (p : Pipeline K.State K.Item K.Stage K.Part) (step : Step → Midst K.State K.Item → Midst K.State K.Item)
        (all order : List Step) (row : Row K.State K.Item) (entry : K.Item)
        → AllCommute step all → DoesCycle p step all row → IsOrder order all → IsCycle p step order row entry }
{}

/// With bounded queues between the stages and events in any order, what has left is what the first items that entered
/// make alone, and each stage's part of the state is what as many of them leave as the stage fired (`queues`). Where all
/// queues are empty, everything that entered has left (`empty`), and the whole state is what it leaves where each part
/// of the state is owned by a stage or left alone (`whole`).
pub fn queues_are_serial<K: StageKind, View>()
    ensures queues { (p : Pipeline K.State K.Item K.Stage K.Part) (most : ℕ) (start : K.State) (events : List (Event K.Item))
        → AreApart p.run p.own p.stages → IsSerialInQueues p start (queues_after p most start events) }
    ensures empty { (p : Pipeline K.State K.Item K.Stage K.Part) (most : ℕ) (start : K.State) (events : List (Event K.Item))
        → AreApart p.run p.own p.stages → AreEmpty (queues_after p most start events)
        → IsSerialWhenEmpty p start (queues_after p most start events) }
    ensures whole { (p : Pipeline K.State K.Item K.Stage K.Part) (most : ℕ) (start : K.State) (events : List (Event K.Item))
        (views : ℕ → K.State → View) → AreApart p.run p.own p.stages → IsShared p views
        → AreEmpty (queues_after p most start events)
        → let w = queues_after p most start events in w.state ≡ state_alone p.run p.stages start w.entered }
{}
