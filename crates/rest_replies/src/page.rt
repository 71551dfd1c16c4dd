// The page of a service, made of web/page.html by `./sumpharu-tools make-pages`.

/// Its text.
pub const PAGE: &str = r###"<!DOCTYPE html>
<html lang="en">
<head>
<meta charset="utf-8">
<meta http-equiv="Content-Security-Policy" content="default-src 'none'; connect-src 'self'; script-src 'sha256-/j5UgVR6jckamzvIUfiGI2tXVMj5kXqfySePY+GqR9I='; style-src 'sha256-cNef2KDKVMXTy69QHadexazr4h86S24G+Jh1KhRPCHs='; base-uri 'none'; form-action 'none'; require-trusted-types-for 'script'">
<meta name="viewport" content="width=device-width, initial-scale=1">
<meta name="referrer" content="no-referrer">
<title>Sumpharu</title>
<style>
:root { color-scheme: light dark; --page: #f4f6f9; --card: #fff; --ink: #1b2330; --soft: #5b6675; --line: #d9dee6; --track: #e8ecf2;
  --blue: #2463c4; --onblue: #fff; --red: #b82626; --green: #1d7a43; --amber: #8a5a00; --grey: #8591a3; --chip: #e9edf3; --alarm: #fdeceb; }
@media (prefers-color-scheme: dark) {
  :root { --page: #0f1318; --card: #171c23; --ink: #e3e8ef; --soft: #9aa6b6; --line: #2c3440; --track: #262e39;
    --blue: #6aa4ff; --onblue: #0c1a30; --red: #ff857b; --green: #54c184; --amber: #e2ac4a; --grey: #66738a; --chip: #252d38; --alarm: #3a1c1d; } }
* { box-sizing: border-box; }
[hidden] { display: none !important; }
body { margin: 0 auto; padding: 14px 20px 32px; max-width: 1760px; background: var(--page); color: var(--ink);
  font: 14px/1.45 system-ui, "Segoe UI", "Helvetica Neue", Arial, sans-serif; font-variant-numeric: tabular-nums; }
h1, h2, p, dl, dd { margin: 0; }
h1 { font-size: 20px; letter-spacing: -.01em; }
h2 { font-size: 15px; }
.skip { position: absolute; left: -999px; }
.skip:focus { left: 20px; top: 4px; background: var(--card); padding: 4px 10px; z-index: 1; }
:focus-visible { outline: 2px solid var(--blue); outline-offset: 2px; }
header { display: flex; flex-wrap: wrap; align-items: baseline; gap: 2px 16px; margin-bottom: 12px; }
#summary { flex: 1 1 300px; color: var(--soft); }
#as-of { color: var(--soft); }
#as-of::before { content: ""; display: inline-block; width: 8px; height: 8px; border-radius: 50%; margin-right: 7px; background: var(--green); }
.waiting #as-of::before { background: var(--grey); }
.lost #as-of::before { background: var(--red); }
.lost .aging { opacity: .55; }
.alarm { color: var(--red); background: var(--alarm); border: 1px solid currentColor; border-radius: 6px; padding: 7px 12px; margin-bottom: 12px; }
.alarm:empty { display: none; }
section { background: var(--card); border: 1px solid var(--line); border-radius: 8px; padding: 12px 16px 14px; min-width: 0; }
.head { display: flex; flex-wrap: wrap; align-items: center; gap: 4px 10px; margin-bottom: 8px; }
.note { color: var(--soft); font-size: 12.5px; overflow-wrap: anywhere; }
.note:empty { display: none; }
.push { margin-left: auto; }
table + .note, .scroll + .note { margin-top: 10px; }
.chip { display: inline-block; font-size: 12px; line-height: 18px; padding: 0 8px; border-radius: 9px; background: var(--chip); white-space: nowrap; }
.good { color: var(--green); }
.bad { color: var(--red); }
.warn { color: var(--amber); }
.busy { color: var(--blue); }

.control { display: grid; grid-template-columns: minmax(0, 1fr) auto; gap: 10px 28px; align-items: end; margin-bottom: 14px; }
.phases { display: flex; height: 8px; border-radius: 4px; overflow: hidden; background: var(--track); margin-bottom: 10px; }
.phases i { flex: 0 1 auto; }
.counts { display: grid; grid-template-columns: repeat(6, minmax(0, 1fr)); gap: 6px 16px; }
.counts dd { font-size: 19px; line-height: 1.25; font-weight: 600; }
.counts dt { color: var(--soft); font-size: 12.5px; white-space: nowrap; }
.counts dt::before { content: ""; display: inline-block; width: 8px; height: 8px; border-radius: 2px; margin-right: 6px; background: var(--line); }
.counts .completed dt::before, i.completed { background: var(--green); }
.counts .inProgress dt::before, i.inProgress { background: var(--blue); }
.counts .aborting dt::before, i.aborting { background: var(--amber); }
.counts .aborted dt::before, i.aborted { background: var(--grey); }
.counts .dead dt::before, i.dead { background: var(--red); }
.buttons { display: flex; flex-wrap: wrap; gap: 8px; }
button, select { font: inherit; color: var(--ink); background: var(--card); border: 1px solid var(--grey); border-radius: 6px; padding: 5px 13px; min-height: 34px; cursor: pointer; }
button:hover { border-color: var(--blue); }
button.main { background: var(--blue); border-color: var(--blue); color: var(--onblue); }
button.stop { color: var(--red); border-color: currentColor; }
button.small { padding: 1px 9px; min-height: 26px; font-size: 13px; }
button[aria-disabled=true] { opacity: .5; cursor: default; }
select { padding: 3px 6px; min-height: 28px; font-size: 13px; }
#told, #refused { grid-column: 1 / -1; overflow-wrap: anywhere; }
#told:empty, #refused:empty { display: none; }
#told { border-left: 3px solid var(--blue); padding: 1px 0 1px 10px; }
#refused { margin: 0; }
#result { grid-column: 1 / -1; }
summary { cursor: pointer; color: var(--blue); width: fit-content; }

.columns { display: grid; grid-template-columns: minmax(0, 400px) minmax(0, 1fr); gap: 14px; align-items: start; }
.side { display: grid; gap: 14px; min-width: 0; }
.scroll { overflow: auto; max-height: 336px; scrollbar-width: thin; scrollbar-color: var(--grey) transparent; }
table { border-collapse: collapse; width: 100%; }
th, td { padding: 4px 12px 4px 0; text-align: left; border-top: 1px solid var(--line); vertical-align: top; font-weight: 400; }
td:last-child, th:last-child { padding-right: 2px; }
thead th { color: var(--soft); font-size: 12.5px; border-top: 0; white-space: nowrap; }
.scroll table { border-collapse: separate; border-spacing: 0; }
.scroll thead th { position: sticky; top: 0; background: var(--card); z-index: 1; }
.name { overflow-wrap: anywhere; }
td small { display: block; color: var(--soft); font: 11.5px/1.4 ui-monospace, Menlo, Consolas, monospace; overflow-wrap: anywhere; }
.right { text-align: right; white-space: nowrap; }
.name b { display: inline-block; min-width: 26px; font-weight: 600; }
.name div { margin: 1px 0 2px 26px; }
td.right { vertical-align: middle; }
.right button + button { margin-left: 6px; }
ins { color: var(--green); text-decoration: none; font-weight: 600; }
del { color: var(--red); text-decoration: none; font-weight: 600; }

.loads { table-layout: fixed; }
.loads th, .loads td { vertical-align: middle; padding-top: 5px; padding-bottom: 5px; }
.loads thead th { text-align: right; white-space: normal; vertical-align: bottom; }
.loads th:first-child { width: 128px; text-align: left; white-space: nowrap; }
.loads tbody th b { display: inline-block; min-width: 30px; font-weight: 600; }
.loads td { text-align: right; line-height: 1.25; }
.loads .average th, .loads .average td { color: var(--soft); font-size: 13px; border-top: 0; border-bottom: 1px solid var(--grey); }
.loads .average + tbody tr:first-child > * { border-top: 0; }
.track { position: relative; height: 6px; margin-top: 2px; background: var(--track); border-radius: 3px; }
.track i { position: absolute; left: 0; top: 0; bottom: 0; border-radius: 3px; background: var(--blue); }
.track b { position: absolute; top: -2px; bottom: -2px; width: 2px; margin-left: -1px; background: var(--ink); }
.DEAD .track i { background: var(--red); }
.DEMOTED .track i { background: var(--amber); }
.NEW .track i { background: var(--green); }
@media (prefers-reduced-motion: no-preference) { .track i { transition: width .3s; } }

dialog { max-width: min(470px, calc(100vw - 32px)); color: inherit; background: var(--card); border: 1px solid var(--grey); border-radius: 10px; padding: 18px 20px; }
dialog::backdrop { background: #0008; }
dialog h2 { margin-bottom: 6px; overflow-wrap: anywhere; }
dialog label { display: flex; gap: 9px; align-items: baseline; margin-top: 10px; }
dialog .buttons { justify-content: flex-end; margin-top: 18px; }

@media (max-width: 1060px) {
  .control, .columns { grid-template-columns: minmax(0, 1fr); }
  .side { grid-template-columns: repeat(auto-fit, minmax(min(100%, 340px), 1fr)); align-items: start; }
}
@media (max-width: 720px) {
  body { padding: 12px 10px 24px; }
  section { padding: 11px 12px 12px; }
  .counts { grid-template-columns: repeat(3, minmax(0, 1fr)); }
  .control button { flex: 1 1 auto; }
  .loads, .loads tbody, .loads tr, .loads th, .loads td { display: block; width: auto; }
  .loads thead { position: absolute; clip-path: inset(50%); height: 1px; width: 1px; overflow: hidden; }
  .loads tr { display: grid; grid-template-columns: repeat(2, minmax(0, 1fr)); gap: 5px 18px; padding: 9px 0; border-top: 1px solid var(--line); }
  .loads th, .loads td, .loads .average th, .loads .average td { border: 0; padding: 0; }
  .loads tbody th:first-child { grid-column: 1 / -1; width: auto; }
  .loads .average tr { border-bottom: 1px solid var(--grey); border-top: 0; }
  .loads td { display: grid; grid-template-columns: 1fr auto; align-items: baseline; font-size: 13px; }
  .loads td::before { content: attr(data-name); text-align: left; color: var(--soft); font-size: 11.5px; }
  .loads .track { grid-column: 1 / -1; margin-top: 3px; }
}
</style>
</head>
<body class="waiting">
<a class="skip" href="#brokers">To the brokers</a>
<header>
  <h1>Sumpharu</h1>
  <p id="summary">Waiting for the first answer.</p>
  <p id="as-of"></p>
</header>
<noscript><p class="alarm">This page needs JavaScript.</p></noscript>
<p id="fault" class="alarm" role="alert"></p>
<main>
<section class="control" aria-labelledby="of-executor">
  <div class="aging">
    <div class="head"><h2 id="of-executor">Executor</h2><span id="doing" class="chip">unknown</span><span id="doing-name" class="note"></span></div>
    <div id="phases" class="phases" aria-hidden="true"></div>
    <dl id="counts" class="counts"></dl>
  </div>
  <div class="buttons" role="group" aria-label="Commands">
    <button type="button" id="dry">Dry-run rebalance</button>
    <button type="button" id="real" aria-haspopup="dialog">Rebalance…</button>
    <button type="button" id="stop" class="stop" aria-haspopup="dialog">Stop…</button>
  </div>
  <p id="told" role="status"></p>
  <p id="refused" class="alarm" role="alert"></p>
  <details id="result" hidden>
    <summary id="result-title"></summary>
    <div class="scroll" role="region" aria-labelledby="result-title" tabindex="0">
      <table><thead><tr><th scope="col">Partition</th><th scope="col">Replicas before</th><th scope="col">Replicas after</th></tr></thead><tbody id="proposals"></tbody></table>
      <p id="proposals-more" class="note"></p>
    </div>
  </details>
</section>
<div class="columns aging">
<div class="side">
  <section id="board" aria-labelledby="of-board" hidden>
    <div class="head"><h2 id="of-board">Review board</h2><span id="board-count" class="chip"></span></div>
    <div class="scroll" role="region" aria-labelledby="of-board" tabindex="0">
      <table><thead><tr><th scope="col">Request</th><th scope="col" class="right">Review</th></tr></thead><tbody id="requests"></tbody></table>
      <p id="requests-more" class="note"></p>
    </div>
    <p class="note">The board doesn't show parameters. Approve only what you know to be filed under its number.</p>
  </section>
  <section aria-labelledby="of-flight">
    <div class="head"><h2 id="of-flight">Partitions in flight</h2><span id="flight-count" class="chip"></span></div>
    <div id="flight" class="scroll" role="region" aria-labelledby="of-flight" tabindex="0" hidden>
      <table><thead><tr><th scope="col">Partition</th><th scope="col">Replicas</th><th scope="col">Adding</th><th scope="col">Removing</th></tr></thead><tbody id="moves"></tbody></table>
      <p id="moves-more" class="note"></p>
    </div>
    <p id="flight-note" class="note">Nothing is known yet.</p>
  </section>
  <section aria-labelledby="of-tasks">
    <div class="head"><h2 id="of-tasks">User tasks</h2><span id="tasks-count" class="chip"></span></div>
    <div id="tasks" class="scroll" role="region" aria-labelledby="of-tasks" tabindex="0" hidden>
      <table><thead><tr><th scope="col">Request</th><th scope="col" class="right">Status</th></tr></thead><tbody id="task-rows"></tbody></table>
      <p id="tasks-more" class="note"></p>
    </div>
    <p id="tasks-note" class="note">Nothing is known yet.</p>
  </section>
</div>
<section id="brokers" aria-labelledby="of-brokers" tabindex="-1">
  <div class="head"><h2 id="of-brokers">Brokers</h2><span id="brokers-count" class="chip"></span>
    <label class="note push">Order <select id="order"><option value="">of the cluster file</option></select></label></div>
  <table class="loads" role="table" aria-labelledby="of-brokers">
    <thead role="rowgroup"><tr id="columns" role="row"><th scope="col" role="columnheader">Broker</th></tr></thead>
    <tbody id="average" class="average" role="rowgroup"></tbody>
    <tbody id="broker-rows" role="rowgroup"></tbody>
  </table>
  <p class="note">A full bar is the most that any broker carries; the mark is the average of the brokers that aren't dead. Loads are in the units of the
    cluster file. A partition in flight counts on its old brokers and on its new ones.</p>
</section>
</div>
</main>
<dialog id="question" aria-labelledby="asked" aria-describedby="asked-more">
  <h2 id="asked"></h2>
  <p id="asked-more"></p>
  <label id="force-line"><input type="checkbox" id="force"><span>Give up the tasks under way too. Their partitions get their old lists back (force_stop).</span></label>
  <div class="buttons"><button type="button" id="no">Cancel</button><button type="button" id="yes" class="main"></button></div>
</dialog>
<script>
'use strict';
// Names that come from the cluster are put in by textContent alone.
const EVERY = 2000, PATIENCE = 10000, SHOWN = 100;
const BASE = 'kafkacruisecontrol/';
const STATES = {
  NO_TASK_IN_PROGRESS: ['idle', ''], STOPPING_EXECUTION: ['stopping', 'warn'],
  INTER_BROKER_REPLICA_MOVEMENT_TASK_IN_PROGRESS: ['moving replicas', 'busy'], LEADER_MOVEMENT_TASK_IN_PROGRESS: ['moving leaders', 'busy'],
};
const PHASES = [['completed', 'completed'], ['inProgress', 'in progress'], ['pending', 'pending'], ['aborting', 'aborting'], ['aborted', 'aborted'], ['dead', 'dead']];
const BROKER = {ALIVE: ['alive', 'good'], NEW: ['new', 'busy'], DEMOTED: ['demoted', 'warn'], DEAD: ['dead', 'bad']};
const TASK = {Active: 'busy', InExecution: 'busy', Completed: 'good', CompletedWithError: 'bad'};
const REVIEW = {PENDING_REVIEW: ['waits for review', 'warn'], APPROVED: ['approved', 'good'], SUBMITTED: ['taken', ''], DISCARDED: ['discarded', '']};
const LOADS = [['replicas', 'Replicas'], ['leaders', 'Leaders'], ['cpu', 'CPU'], ['disk', 'DISK'], ['nwIn', 'NW_IN'], ['nwOut', 'NW_OUT'], ['potentialNwOut', 'Potential NW_OUT']];

const at = id => document.getElementById(id);
const whole = new Intl.NumberFormat('en', {maximumFractionDigits: 0}), tenth = new Intl.NumberFormat('en', {maximumFractionDigits: 1});
const figure = number => (number < 100 ? tenth : whole).format(number);
const plural = (count, what) => `${figure(count)} ${what}${count === 1 ? '' : 's'}`;

function put(node, text) {
  if (node.textContent !== String(text)) node.textContent = text;
}

function dress(node, name) {
  if (node.className !== name) node.className = name;
}

function make(tag, name, ...inside) {
  const node = document.createElement(tag);
  if (name) node.className = name;
  node.append(...inside);
  return node;
}

function role(node, name) {
  node.setAttribute('role', name);
  return node;
}

// A table's rows for a list. A row is made once for its key and then filled again and again, so that focus and scroll stay.
const kept = new Map();
function fillRows(body, list, key, build, fill) {
  const old = kept.get(body) || new Map(), now = new Map(list.map(it => [key(it), it]));
  for (const [name, row] of old) if (!now.has(name)) row.remove();
  let place = body.firstElementChild;
  for (const [name, it] of now) {
    const row = old.get(name) || build(it);
    fill(row, it);
    now.set(name, row);
    if (row === place) place = place.nextElementSibling;
    else body.insertBefore(row, place);
  }
  kept.set(body, now);
}

function tellMore(node, count, what) {
  put(node, count > SHOWN ? `${plural(count - SHOWN, what)} not shown.` : '');
}

// Asking

class Fault extends Error {
  constructor(text, code) {
    super(text);
    this.code = code;
  }
}

async function send(method, name, task) {
  let reply, body;
  try {
    const headers = task ? {'User-Task-ID': task} : {};
    reply = await fetch(BASE + name, {method, headers, cache: 'no-store', redirect: 'error', signal: AbortSignal.timeout(PATIENCE)});
    body = await reply.text();
  } catch (fault) {
    throw new Fault(fault.name === 'TimeoutError' ? `no answer in ${PATIENCE / 1000} seconds` : 'no answer', 0);
  }
  try {
    body = JSON.parse(body);
  } catch {
    throw new Fault(`${reply.status}, and no JSON`, reply.status);
  }
  if (!reply.ok) throw new Fault(`${reply.status} ${body && body.errorMessage || ''}`, reply.status);
  return body;
}

// One request at a time, so that one connection will do. A command waits for no more than the request under way.
let line = Promise.resolve();
function ask(method, name, task) {
  const mine = line.then(() => send(method, name, task));
  line = mine.catch(() => {});
  return mine;
}

function listOf(body, name) {
  if (!body || !Array.isArray(body[name])) throw new Fault('an answer of another form', 200);
  return body[name];
}

// What is shown

let isMoving = false, hasBoard, doing = '', partitions = '', brokers = [];

function showState(body) {
  const counts = body.ExecutorState, [text, look] = STATES[counts.state] || [counts.state, ''];
  const all = PHASES.reduce((sum, [name]) => sum + counts[name], 0);
  isMoving = counts.inProgress + counts.aborting > 0;
  doing = text;
  put(at('doing'), text);
  dress(at('doing'), `chip ${look}`);
  put(at('doing-name'), counts.state === 'NO_TASK_IN_PROGRESS' ? (all ? `${plural(all, 'task')} in the last execution` : 'no execution so far') : `${plural(all, 'task')} in this execution`);
  PHASES.forEach(([name], index) => {
    put(at('counts').children[index].lastChild, figure(counts[name]));
    at('phases').children[index].style.width = all ? `${100 * counts[name] / all}%` : '0';
  });
  partitions = `${plural(body.MonitorState.all, 'partition')}, ${figure(body.MonitorState.valid)} with a load.`;
  showSummary();
}

function showSummary() {
  const told = Object.entries(BROKER).map(([state, [text]]) => [brokers.filter(it => it.state === state).length, text]).filter(([count]) => count);
  put(at('summary'), (brokers.length ? `${plural(brokers.length, 'broker')}: ${told.map(([count, text]) => `${count} ${text}`).join(', ')}. ` : '') + partitions);
}

function fillBroker(row, it, most, average) {
  const [text, look] = BROKER[it.state] || [it.state, ''], [name, ...cells] = row.children;
  dress(row, it.state);
  put(name.firstChild, it.broker);
  put(name.lastChild, text);
  dress(name.lastChild, `chip ${look}`);
  LOADS.forEach(([load, title], index) => {
    const cell = cells[index], [bar, mark] = cell.lastChild.children;
    put(cell.firstChild, figure(it[load]));
    bar.style.width = most[load] ? `${100 * it[load] / most[load]}%` : '0';
    mark.style.left = most[load] ? `${100 * average[load] / most[load]}%` : '0';
    mark.hidden = !most[load];
  });
}

function buildCells(cell) {
  return LOADS.map(([, title]) => {
    const node = role(make('td', '', ...cell()), 'cell');
    node.dataset.name = title;
    return node;
  });
}

function rowHead(...inside) {
  const head = role(make('th', '', ...inside), 'rowheader');
  head.scope = 'row';
  return head;
}

function buildBroker(it) {
  const head = rowHead(make('b'), make('span'));
  const row = role(make('tr', '', head, ...buildCells(() => [make('span'), make('div', 'track', make('i'), make('b'))])), 'row');
  row.dataset.broker = it.broker;
  return row;
}

function showBrokers() {
  const most = {}, average = {}, alive = brokers.filter(it => it.state !== 'DEAD'), order = at('order').value;
  for (const [load] of LOADS) {
    most[load] = Math.max(0, ...brokers.map(it => it[load]));
    average[load] = alive.length ? alive.reduce((sum, it) => sum + it[load], 0) / alive.length : 0;
  }
  const sorted = order ? [...brokers].sort((a, b) => b[order] - a[order]) : brokers;
  fillRows(at('broker-rows'), sorted, it => it.broker, buildBroker, (row, it) => fillBroker(row, it, most, average));
  LOADS.forEach(([load], index) => put(at('average').firstChild.children[index + 1].firstChild, figure(average[load])));
  put(at('brokers-count'), brokers.length);
}

function showLoad(body) {
  brokers = listOf(body, 'brokers');
  showBrokers();
  showSummary();
}

const nameOf = it => `${it.topic}-${it.partition}`;

function buildMove() {
  return make('tr', '', make('td', 'name'), make('td'), make('td', '', make('ins')), make('td', '', make('del')));
}

function fillMove(row, it) {
  const [name, replicas, adding, removing] = row.children;
  put(name, nameOf(it));
  put(replicas, it.replicas.join(', '));
  put(adding.firstChild, it.adding.join(', '));
  put(removing.firstChild, it.removing.join(', '));
}

function showMoves(list) {
  fillRows(at('moves'), list.slice(0, SHOWN), nameOf, buildMove, fillMove);
  tellMore(at('moves-more'), list.length, 'partition');
  put(at('flight-count'), figure(list.length));
  at('flight').hidden = !list.length;
  put(at('flight-note'), list.length ? '' : isMoving ? 'Only leaders or the order of lists change.' : 'None.');
}

function showPartitions(body) {
  showMoves(listOf(body, 'partitions').filter(it => it.adding.length || it.removing.length));
}

function buildTask() {
  return make('tr', '', make('td', 'name', make('span'), make('small')), make('td', 'right', make('span')));
}

function fillTask(row, it) {
  put(row.firstChild.firstChild, it.endpoint);
  put(row.firstChild.lastChild, it.userTaskId);
  put(row.lastChild.firstChild, it.status);
  dress(row.lastChild.firstChild, `chip ${TASK[it.status] || ''}`);
}

function showTasks(body) {
  const tasks = listOf(body, 'userTasks');
  fillRows(at('task-rows'), tasks.slice(-SHOWN).reverse(), it => it.userTaskId, buildTask, fillTask);
  tellMore(at('tasks-more'), tasks.length, 'earlier task');
  put(at('tasks-count'), figure(tasks.length));
  at('tasks').hidden = !tasks.length;
  put(at('tasks-note'), tasks.length ? '' : 'None.');
  followUp(tasks);
}

function button(text, what, press) {
  const node = make('button', 'small', text);
  node.type = 'button';
  node.setAttribute('aria-label', what);
  node.addEventListener('click', () => press(node));
  return node;
}

function buildRequest(it) {
  return make('tr', '', make('td', 'name', make('b'), make('span'), make('div', '', make('span'))), make('td', 'right'));
}

function fillRequest(row, it) {
  const [request, buttons] = row.children, [id, name, state] = request.children;
  const [text, look] = REVIEW[it.status] || [it.status, ''], what = `request ${it.reviewId}, ${it.endpoint}`;
  put(id, it.reviewId);
  put(name, it.endpoint);
  put(state.firstChild, text);
  dress(state.firstChild, `chip ${look}`);
  if (row.dataset.status === it.status) return;
  row.dataset.status = it.status;
  const hadFocus = row.contains(document.activeElement);
  buttons.replaceChildren();
  if (it.status === 'PENDING_REVIEW') {
    for (const verb of ['Approve', 'Discard']) buttons.append(button(verb, `${verb} ${what}`, node => command(node, `${verb} ${what}`, `review?${verb.toLowerCase()}=${it.reviewId}`)));
  } else if (it.status === 'APPROVED' && /^[a-z_]+$/.test(it.endpoint)) {
    buttons.append(button('Take…', `Take ${what}`, node => question(`Take ${what}?`, 'It starts now, as it was filed. The board doesn\'t show its parameters.', 'Take',
      () => take(node, it, what))));
  }
  if (hadFocus) (buttons.firstChild || at('requests').closest('.scroll')).focus();
}

function showBoard(body) {
  const requests = listOf(body, 'requests'), open = requests.filter(it => it.status === 'PENDING_REVIEW' || it.status === 'APPROVED');
  const closed = requests.filter(it => !open.includes(it)).slice(-SHOWN);
  hasBoard = true;
  at('board').hidden = false;
  fillRows(at('requests'), [...open, ...closed].sort((a, b) => b.reviewId - a.reviewId), it => `${it.reviewId} ${it.endpoint}`, buildRequest, fillRequest);
  tellMore(at('requests-more'), requests.length - open.length, 'closed request');
  put(at('board-count'), `${open.length} open`);
}

// Polling: one round at a time, none while the page is hidden.

const POLLS = [
  ['state', showState], ['load', showLoad],
  ['kafka_cluster_state', showPartitions], ['user_tasks', showTasks], ['review_board', showBoard],
];

async function round() {
  const faults = [];
  let isLost = false;
  for (const [name, show] of POLLS) {
    if (document.hidden) return;
    if (name === 'review_board' && hasBoard === false) continue;
    // Without a task under way no partition is in flight, and the long list of all isn't asked.
    if (name === 'kafka_cluster_state' && !isMoving && !faults.length) {
      showMoves([]);
      continue;
    }
    try {
      show(await ask('GET', name));
    } catch (fault) {
      if (name === 'review_board' && fault.code === 404) {
        hasBoard = false;
        at('board').hidden = true;
        continue;
      }
      faults.push(`GET ${name}: ${fault instanceof Fault ? fault.message : 'an answer of another form'}.`);
      isLost = fault.code === 0;
      if (isLost) break;
    }
  }
  // What answers next may be another service.
  if (isLost) hasBoard = undefined;
  else put(at('as-of'), `as of ${new Date().toLocaleTimeString('en-GB')}`);
  put(at('fault'), faults.length ? `${faults.join(' ')} Tried again every ${EVERY / 1000} seconds${isLost ? '; what is shown is old' : ''}.` : '');
  dress(document.body, isLost ? 'lost' : '');
  document.title = `Sumpharu: ${isLost ? 'no answer' : doing}`;
}

let timer = 0, isGoing = false, isWanted = false;
async function go() {
  clearTimeout(timer);
  isWanted = true;
  if (isGoing) return;
  isGoing = true;
  while (isWanted && !document.hidden) {
    isWanted = false;
    try {
      await round();
    } catch (fault) {
      put(at('fault'), `The page itself failed: ${fault.message}.`);
    }
  }
  isGoing = false;
  if (!document.hidden) timer = setTimeout(go, EVERY);
}

document.addEventListener('visibilitychange', () => document.hidden ? clearTimeout(timer) : go());

// Commands

function say(text, isBad) {
  put(at('told'), isBad ? '' : text);
  put(at('refused'), isBad ? text : '');
}

function outcome(body) {
  if (body.reviewId) return `filed as request ${body.reviewId} of the review board.`;
  if (body.userTaskId) return `${body.status}, task ${body.userTaskId}.`;
  if (body.requests) return body.requests.map(it => `request ${it.reviewId} is ${it.status}.`).join(' ');
  if ('aborted' in body) return `${plural(body.aborted, 'task')} given up, ${figure(body.aborting)} aborting.`;
  return 'done.';
}

// A command's button works again once it is answered.
async function command(node, what, name) {
  if (node.getAttribute('aria-disabled')) return undefined;
  node.setAttribute('aria-disabled', 'true');
  say(`${what}: asked.`);
  let body;
  try {
    body = await ask('POST', name);
    say(`${what}: ${outcome(body)}`);
  } catch (fault) {
    say(`${what}: ${fault.message}.${fault.code ? '' : ' It may have been taken all the same: look at the user tasks before you ask again.'}`, true);
  }
  node.removeAttribute('aria-disabled');
  go();
  return body;
}

// The task whose result is waited for. Only a dry run is asked again with its id: if a proxy lost that id, it would be a new request.
let awaited = null, isSurelyDry = true;
const DRY = 'rebalance?dryrun=true';

async function take(node, it, what) {
  const body = await command(node, `Take ${what}`, `${it.endpoint}?review_id=${it.reviewId}`);
  // Whether it is a dry run isn't shown; asked for as one, it is refused if it isn't.
  if (body && body.userTaskId && it.endpoint === 'rebalance') [awaited, isSurelyDry] = [body.userTaskId, false];
}

async function followUp(tasks) {
  const mine = awaited && tasks.find(it => it.userTaskId === awaited);
  if (!mine || mine.status === 'Active') return;
  awaited = null;
  try {
    const body = await ask('POST', DRY, mine.userTaskId);
    if (body.failed) say(`Dry-run rebalance: ${body.failed} can't be met; its measure stays at ${body.measure}.`, true);
    else showProposals(listOf(body, 'proposals'));
  } catch (fault) {
    if (isSurelyDry) say(`Dry-run rebalance: ${fault.message}.`, true);
  }
}

function fillProposal(row, it) {
  const [name, before, after] = row.children;
  const others = (list, other, mark) => list.flatMap((id, index) => [index ? ', ' : '', other.includes(id) ? String(id) : make(mark, '', String(id))]);
  put(name, nameOf(it.topicPartition));
  before.replaceChildren(...others(it.oldReplicas, it.newReplicas, 'del'));
  after.replaceChildren(...others(it.newReplicas, it.oldReplicas, 'ins'));
}

function showProposals(list) {
  say(`Dry-run rebalance: ${list.length ? `it would change ${plural(list.length, 'partition')}` : 'it would change nothing'}.`);
  put(at('result-title'), `Result of the dry run: ${plural(list.length, 'partition')}`);
  const build = () => make('tr', '', make('td', 'name'), make('td'), make('td'));
  fillRows(at('proposals'), list.slice(0, SHOWN), it => nameOf(it.topicPartition), build, fillProposal);
  tellMore(at('proposals-more'), list.length, 'partition');
  at('result').hidden = !list.length;
}

let onYes = null;
function question(title, more, yes, then, isStop) {
  put(at('asked'), title);
  put(at('asked-more'), more);
  put(at('yes'), yes);
  at('force').checked = false;
  at('force-line').hidden = !isStop;
  onYes = then;
  at('question').showModal();
}

at('no').addEventListener('click', () => at('question').close());
at('yes').addEventListener('click', () => {
  at('question').close();
  onYes();
});

at('dry').addEventListener('click', async () => {
  at('result').hidden = true;
  const body = await command(at('dry'), 'Dry-run rebalance', DRY);
  [awaited, isSurelyDry] = [body && body.userTaskId, true];
});

const FILED = 'The service has a review board: the request is filed there, and starts nothing until it is approved and taken.';

at('real').addEventListener('click', () => question('Rebalance the cluster?',
  hasBoard ? FILED : 'The service plans for all goals and carries the plan out: replicas and leaders move between brokers.',
  hasBoard ? 'File' : 'Rebalance', () => command(at('real'), 'Rebalance', 'rebalance?dryrun=false')));

at('stop').addEventListener('click', () => question('Stop the execution?',
  hasBoard ? FILED : 'The tasks that wait are given up. Those under way go on to their end.',
  hasBoard ? 'File' : 'Stop', () => command(at('stop'), 'Stop', `stop_proposal_execution?force_stop=${at('force').checked}`), true));

for (const [name, text] of PHASES) {
  at('counts').append(make('div', name, make('dt', '', text), make('dd', '', '–')));
  at('phases').append(make('i', name));
}
for (const [load, title] of LOADS) {
  const head = role(make('th', '', title), 'columnheader'), option = make('option', '', `most ${title} first`);
  head.scope = 'col';
  at('columns').append(head);
  option.value = load;
  at('order').append(option);
}
at('average').append(role(make('tr', '', rowHead('average'), ...buildCells(() => [make('span', '', '–')])), 'row'));
at('order').addEventListener('change', showBrokers);
go();
</script>
</body>
</html>
"###;
